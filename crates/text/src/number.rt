// Numbers: decimal with no zeros in front, and bytes as two hexadecimal digits.
ghost use Rattle.std.specs.Prelude.{◌≡◌, [], ◌∷◌, ◌<◌};
ghost use Rattle.text.specs.Puts.{Puts};
ghost use Rattle.text.specs.Text.{glyph, digits_in, hex_glyph, spaced, hexes};

use crate::page::Page;

// What stands before each number and each byte.
const SPACE: u8 = b' ';

fn digit(n: u16) -> u8
    requires { n < 10 }
    ensures { result ≡ glyph n }
{
    b'0' + n as u8
}

// (Up to 9 it gives what `digit` does: one line each, with a definition each.)
fn hex_digit(n: u8) -> u8
    requires { n < 16 }
    ensures { result ≡ hex_glyph n }
{
    if n < 10 { b'0' + n } else { b'A' - 10 + n }
}

impl Page<'_> {
    // The last digits of a number, at most so many: by itself for the digits in front, as `digits_in` of the definitions.
    pub(crate) fn put_digits(&mut self, places: u8, n: u16)
        ensures { Puts self.old self.new (digits_in places n) }
    {
        if places == 0 {
            return;
        }
        if n < 10 {
            return self.put_byte(digit(n));
        }
        self.put_digits(places - 1, n / 10);
        self.put_byte(digit(n % 10));
    }

    // A number after a space.
    pub(crate) fn put_spaced(&mut self, n: u16)
        ensures { Puts self.old self.new (spaced n) }
    {
        self.put_byte(SPACE);
        self.put_digits(5, n);
    }

    // A byte as two digits after a space.
    fn put_hex(&mut self, byte: u8)
        ensures { Puts self.old self.new (hexes (byte ∷ [])) }
    {
        self.put_byte(SPACE);
        self.put_byte(hex_digit(byte / 16));
        self.put_byte(hex_digit(byte % 16));
    }

    // Every byte, each after a space. (`put_text` is one loop too, of another step, and lends the page on for the same reason.)
    pub(crate) fn put_hexes(&mut self, bytes: &[u8])
        ensures { Puts self.old self.new (hexes bytes.now) }
    {
        let mut page = Page {
            bytes: &mut *self.bytes,
            place: self.place,
        };
        for byte in bytes {
            page.put_hex(*byte);
        }
        self.place = page.place;
    }
}
