// Binding records.
ghost use Rattle.std.specs.Prelude.{◌≡◌, ◌+◌, ◌≤◌, length, drop};
ghost use Rattle.records.specs.Bytes.{stored};
ghost use Rattle.records.specs.Contexts.{kind_byte, kind_of, binding_bytes, binding_in};

use crate::bytes;

// What a variable holds: linked, for any Chirality but Ext, or an integer.
#[derive(Clone, Copy)]
pub enum Kind {
    Linked,
    Ext,
}

#[derive(Clone, Copy)]
pub struct Binding {
    pub kind: Kind,
    pub id: u32,
}

impl From<Kind> for u8 {
    ghost from_gives = { λ kind byte. byte ≡ kind_byte kind };

    fn from(kind: Kind) -> u8 {
        match kind {
            Kind::Linked => 0,
            Kind::Ext => 1,
        }
    }
}

// Kept by name: `binding_in` gives every byte a kind, so there is nothing to try.
fn kind_of(byte: u8) -> Kind
    ensures { result ≡ kind_of byte }
{
    if byte == 0 { Kind::Linked } else { Kind::Ext }
}

// The binding at byte `at`.
pub fn binding_at(s: &[u8], at: usize) -> Binding
    requires { at + 8 ≤ length s.now }
    ensures { result ≡ binding_in (drop at s.now) }
{
    let kind = kind_of(s[at + 2]);
    let id = bytes::number4(s, at + 4);
    Binding { kind, id }
}

// The record of b at byte `at`, whole, or nothing where it does not fit.
pub fn write_binding(out: &mut [u8], at: usize, b: Binding)
    ensures { out.new ≡ stored out.old at (binding_bytes b) }
{
    if 8 <= out.len() && at <= out.len() - 8 {
        bytes::store_head(out, at, 0xA7, 0x01, u8::from(b.kind), 0);
        bytes::store4(out, at + 4, b.id);
    }
}
