// Records written one after the other into a lent output.
// A record past the output's end is not written, and the cursor moves on all the same: so one emitter tells the size and writes.
ghost use Rattle.std.specs.Prelude.{◌≡◌, [], ◌∷◌, ◌+◌, ◌<◌, ◌^◌};
ghost use Rattle.emit.specs.Emitted.{row_fields, Emitted};

use records::code::Fields;

// The byte where the next record goes, and the label counter.
#[derive(Clone, Copy)]
pub struct Cursor {
    pub at: usize,
    pub counter: u64,
}

// A record: code, register a, register b, label, offset, value.
#[derive(Clone, Copy)]
pub struct Row(pub u8, pub u8, pub u8, pub u32, pub u64, pub u64);

pub fn emit(out: &mut [u8], p: Cursor, r: Row) -> Cursor
    requires { p.at + 24 < 2 ^ 64 }
    ensures { Emitted out.old p out.new result (row_fields r ∷ []) 0 }
{
    records::code::write_fields(
        out,
        p.at,
        Fields {
            code: r.0,
            a: r.1,
            b: r.2,
            label: r.3,
            offset: r.4,
            value: r.5,
        },
    );
    Cursor {
        at: p.at + 24,
        counter: p.counter,
    }
}

pub fn emit2(out: &mut [u8], p: Cursor, r: Row, s: Row) -> Cursor
    requires { p.at + 48 < 2 ^ 64 }
    ensures { Emitted out.old p out.new result (row_fields r ∷ row_fields s ∷ []) 0 }
{
    let q = emit(out, p, r);
    emit(out, q, s)
}

pub fn emit3(out: &mut [u8], p: Cursor, r: Row, s: Row, t: Row) -> Cursor
    requires { p.at + 72 < 2 ^ 64 }
    ensures { Emitted out.old p out.new result (row_fields r ∷ row_fields s ∷ row_fields t ∷ []) 0 }
{
    let q = emit2(out, p, r, s);
    emit(out, q, t)
}

pub fn emit4(out: &mut [u8], p: Cursor, r: Row, s: Row, t: Row, u: Row) -> Cursor
    requires { p.at + 96 < 2 ^ 64 }
    ensures { Emitted out.old p out.new result (row_fields r ∷ row_fields s ∷ row_fields t ∷ row_fields u ∷ []) 0 }
{
    let q = emit2(out, p, r, s);
    emit2(out, q, t, u)
}

// The cursor with n labels more drawn.
pub fn draw(p: Cursor, n: u64) -> Cursor
    requires { p.counter + n < 2 ^ 64 }
    ensures { result ≡ record { at = p.at; counter = p.counter + n } }
{
    Cursor {
        at: p.at,
        counter: p.counter + n,
    }
}
