// What a net is made with.
use std::net::IpAddr;

/// What a `TcpNet` is made with.
#[derive(Drop, Debug)]
pub struct NetSettings {
    /// The addresses of the port for metric lines, 1 to 16.
    pub line_addresses: Vec<IpAddr>,
    /// The addresses of the port for HTTP, 1 to 16.
    pub http_addresses: Vec<IpAddr>,
    /// How many seconds a sender of metric lines may be silent before its link ends; 0 is for ever. More than 2,147,483
    /// seconds, 24 days, count as so many.
    pub line_patience: u32,
}
