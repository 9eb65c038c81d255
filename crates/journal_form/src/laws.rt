//! What holds of the bytes of every head and every record. The functions do nothing: what they
//! ensure is the law. A head or a record fits where its numbers, lengths and path have a place.
ghost use Rattle.std.specs.Prelude.{◌≡◌, ◌<◌, ◌++◌, ℕ, List, IfSome, Some, length, take};
ghost use Rattle.std.specs.Prelude.{slice_index};
ghost use Rattle.journal_form.specs.Form.{FitsHead, FitsRecord, HeadValue, RecordValue};
ghost use Rattle.journal_form.specs.Form.{head_bytes, record_bytes};
ghost use Rattle.journal_form.specs.Read.{head_in, record_in};

/// A head that was written is read back with its length, whatever follows. So no two heads have the
/// same bytes, and none begins another.
#[tactic(auto, using(crate::proofs::RecordLemmas::head_in_again))]
pub fn written_head_is_read()
    ensures { (head : HeadValue) (rest : List ℕ) → FitsHead head
        → head_in (head_bytes head ++ rest) ≡ Some (head, length (head_bytes head)) }
{}

/// A head that is read was written so: the bytes of its length are its own.
#[tactic(auto, using(crate::proofs::RecordLemmas::head_in_read))]
pub fn read_head_was_written()
    ensures { (bytes : List ℕ) → ((i : ℕ) → slice_index bytes i < 256)
        → IfSome (head_in bytes) (λ x. FitsHead x.0 × (take x.1 bytes ≡ head_bytes x.0)) }
{}

/// A record that was written is read back with its length, whatever follows. So no two records have
/// the same bytes, and none begins another.
#[tactic(auto, using(crate::proofs::RecordLemmas::record_in_again))]
pub fn written_record_is_read()
    ensures { (held : RecordValue) (rest : List ℕ) → FitsRecord held
        → record_in (record_bytes held ++ rest) ≡ Some (held, length (record_bytes held)) }
{}

/// A record that is read was written so: the bytes of its length are its own.
#[tactic(auto, using(crate::proofs::RecordLemmas::record_in_read))]
pub fn read_record_was_written()
    ensures { (bytes : List ℕ) → ((i : ℕ) → slice_index bytes i < 256)
        → IfSome (record_in bytes) (λ x. FitsRecord x.0 × (take x.1 bytes ≡ record_bytes x.0)) }
{}
