ghost use Rattle.std.specs.Prelude.{◌≡◌, length, IsTrue, IfSome, Some, drop, ◌==◌, ◌&&◌};
ghost use Rattle.ufs_layout.specs.JournalHead.{header_bytes, header_fields, header_of, is_header};
ghost use Rattle.ufs_layout.specs.Words.{byte_at, is_zeros};

use crate::bytes::{
    clear, found, has_only_zeros, put_u16, put_u32, put_u64, u16_at, u32_at, u64_at,
};

/// The head of a journal sector, 24 bytes. The kind is 1 for records and 2 for a commit, whose index is
/// the number of its record sectors; `used` is the number of content bytes, at most 488.
#[derive(Clone, Copy, Debug, PartialEq, Eq)]
pub struct Header {
    pub epoch: u64,
    pub txn: u32,
    pub index: u16,
    pub kind: u8,
    pub used: u16,
}

/// Writes the one spelling of the head of a journal sector.
pub fn put_header(head: &mut [u8], value: &Header)
    requires sized { length head.old ≡ 24 }
    requires form { IsTrue (is_header value.now) }
    ensures spelling { head.new ≡ header_bytes value.now }
    ensures read_back { header_of head.new ≡ Some value.now }
{
    clear(head);
    put_u64(head, 0, value.epoch);
    put_u32(head, 8, value.txn);
    put_u16(head, 12, value.index);
    head[14] = value.kind;
    put_u16(head, 16, value.used);
}

fn fields(head: &[u8]) -> Header
    requires { length head.now ≡ 24 }
    ensures { result ≡ header_fields head.now }
{
    Header {
        epoch: u64_at(head, 0),
        txn: u32_at(head, 8),
        index: u16_at(head, 12),
        kind: head[14],
        used: u16_at(head, 16),
    }
}

fn is_form(value: &Header) -> bool
    ensures { result ≡ is_header value.now }
{
    value.txn >= 1 && (value.kind >= 1 && value.kind <= 2 && value.used <= 488)
}

fn is_spelled(head: &[u8]) -> bool
    requires { length head.now ≡ 24 }
    ensures { result ≡ (byte_at 15 head.now == 0 && is_zeros (drop 18 head.now)) }
{
    head[15] == 0 && has_only_zeros(&head[18..])
}

/// The value whose one spelling the bytes are; `None` where they are none's.
pub fn get_header(head: &[u8]) -> Option<Header>
    requires { length head.now ≡ 24 }
    ensures value { result ≡ header_of head.now }
    ensures spelling { IfSome result (λ v. head.now ≡ header_bytes v) }
    ensures form { IfSome result (λ v. IsTrue (is_header v)) }
{
    let value = fields(head);
    found(is_form(&value), is_spelled(head), value)
}
