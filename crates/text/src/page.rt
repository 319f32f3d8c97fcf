// Writing bytes into a lent slice from a place on.
ghost use Rattle.std.specs.Prelude.{[], ◌∷◌};
ghost use Rattle.text.specs.Puts.{Puts};

// A lent slice and the place in it where the next byte goes; a byte that finds the slice full is left out.
#[derive(Drop)]
pub(crate) struct Page<'a> {
    pub(crate) bytes: &'a mut [u8],
    pub(crate) place: usize,
}

impl Page<'_> {
    // By the place and not by `get_mut`: what is written through that is not known to a proof.
    pub(crate) fn put_byte(&mut self, byte: u8)
        ensures { Puts self.old self.new (byte ∷ []) }
    {
        if self.place < self.bytes.len() {
            self.bytes[self.place] = byte;
            self.place += 1;
        }
    }

    // By a page of its own, lent on for the loop: the place behind `self` would be read and written for each byte.
    pub(crate) fn put_text(&mut self, text: &[u8])
        ensures { Puts self.old self.new text.now }
    {
        let mut page = Page {
            bytes: &mut *self.bytes,
            place: self.place,
        };
        for byte in text {
            page.put_byte(*byte);
        }
        self.place = page.place;
    }
}
