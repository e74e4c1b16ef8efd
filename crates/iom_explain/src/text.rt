//! Texts on a page.

ghost use Rattle.std.specs.Prelude.{◌≡◌, ◌+◌, ◌++◌, ◌≤◌, length};
ghost use Rattle.iom_text.specs.Texts.{hexadecimal, numeral};
ghost use Rattle.iom_items.specs.Lines.{operand};

use iom_debug::{OutputPage, put};
use iom_text::{decimal, hexadecimal};

/// Appends a name, of at most 40 bytes, and a number in decimal.
pub fn put_decimal(out: &mut OutputPage, name: &[u8], number: u64)
    requires name { length name.now ≤ 40 }
    requires room { length out.old.items ≤ 16000 }
    ensures text { out.new.items ≡ out.old.items ++ (name.now ++ numeral 10 number) }
    ensures room { length out.new.items ≤ length out.old.items + length name.now + 20 }
{
    put(out, name);
    put(out, decimal(number).as_slice());
}

/// Appends a blank, a key of at most 10 bytes, `=` and a number in hex.
pub fn put_operand(out: &mut OutputPage, key: &[u8], value: u64)
    requires key { length key.now ≤ 10 }
    requires room { length out.old.items ≤ 16000 }
    ensures text { out.new.items ≡ out.old.items ++ operand key.now value }
    ensures room { length out.new.items ≤ length out.old.items + length key.now + 20 }
{
    put(out, b" ");
    put(out, key);
    put(out, b"=");
    put(out, hexadecimal(value).as_slice());
}
