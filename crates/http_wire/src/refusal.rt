//! The refusals that have no body.

/// A refusal without a body, by its status.
#[derive(Clone, Copy, Debug, PartialEq, Eq)]
pub enum Refusal {
    /// 400: no request can be read, or the link ended inside one.
    BadRequest,
    /// 404: nothing has the target's path.
    NotFound,
    /// 405: the method is neither GET nor POST.
    MethodNotAllowed,
    /// 411: a POST says no length.
    LengthRequired,
    /// 413: a body is said to be longer than a body may be.
    ContentTooLarge,
    /// 500: a disk failed.
    ServerError,
    /// 501: a body is to come in a transfer coding.
    NotImplemented,
    /// 503: memory ran out.
    Unavailable,
}

impl Refusal {
    ghost use Rattle.std.specs.Prelude.{◌≡◌};
    ghost use Rattle.http_wire.specs.Codes.{code_of};

    /// The status code.
    pub fn code(self) -> u16
        ensures { result ≡ code_of self }
    {
        match self {
            Refusal::BadRequest => 400,
            Refusal::NotFound => 404,
            Refusal::MethodNotAllowed => 405,
            Refusal::LengthRequired => 411,
            Refusal::ContentTooLarge => 413,
            Refusal::ServerError => 500,
            Refusal::NotImplemented => 501,
            Refusal::Unavailable => 503,
        }
    }
}
