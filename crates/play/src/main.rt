// Reads a run pack from standard input and prints what is played of it. Everything that matters is
// in the crate player.
#![tactic(auto)]

ghost use Rattle.std.specs.Prelude.{◌≡◌, ◌≤◌, List, length, take, IfOk, IfSome, OnOk};
ghost use Rattle.std.specs.Io.KnownBytes.{Appends};
ghost use Rattle.frame.specs.Result.{accepted, number_of};
ghost use Rattle.text.specs.Text.{refused_text};
ghost use Rattle.player.specs.Played.{open_of, played};
ghost use Rattle.player.specs.Whole.{held};
ghost use Rattle.play.specs.Program.{PlaysOut};

use frame::Refusal;
use line::LINE;
use player::{PAGE, Player};
use std::io;
use std::io::{Read, Write};

// A pack has at most 65535 bytes: one more is read, so that a longer input is seen to be none.
const MOST: usize = 65536;

// The receiving buffer has room for the longest message. (By `as`: a constant calls no `from`.)
const BUFFER: usize = frame::LONGEST as usize;

// So many calls of play finish every pack (`PrintsPlayed` in crates/player).
const CALLS: usize = 512;

// Reads until the buffer is full or the input ends, and returns how many bytes it put at its start. The library has no
// method that fills a lent slice as far as the input goes.
fn read_full<R: Read>(input: &mut R, buffer: &mut [u8]) -> io::Result<usize>
    ensures fits { IfOk result (λ n. n ≤ length buffer.new) }
    ensures bytes { IfOk result (λ n. IfSome (R.remaining input.old)
        (λ given. take n buffer.new ≡ take (length buffer.old) given)) }
{
    let mut done = 0;
    while done < buffer.len() {
        let got = input.read(&mut buffer[done..])?;
        if got == 0 {
            break;
        }
        done += got;
    }
    Ok(done)
}

// The part of a page that is written goes out. It is cut to the page here: that it fits is not promised of `written`.
fn show<W: Write>(out: &mut W, page: &[u8], written: usize) -> io::Result<()>
    ensures { OnOk result (Appends (W.contents out.old) (W.contents out.new) (take written page.now)) }
{
    let shown = written.min(page.len());
    out.write_all(&page[..shown])
}

// Plays the events, 128 in a call. What is lent goes apart, as `Player::play` takes it.
fn play_events<W: Write>(
    out: &mut W,
    begun: Player,
    pack: &[u8],
    buffer: &mut [u8],
    forward: &mut [u8],
    back: &mut [u8],
    page: &mut [u8],
) -> io::Result<()>
    ensures { length page.old ≡ 16384
        → OnOk result (PlaysOut (W.contents out.old) (W.contents out.new) pack.now
        (held begun forward.old back.old buffer.old)) }
{
    let mut player = begun;
    for _calls in 0..CALLS {
        if player.is_finished() {
            return Ok(());
        }
        let progress = player.play(pack, buffer, forward, back, page);
        show(out, page, progress.written)?;
        player = progress.player;
    }
    Ok(())
}

// A pack that is opened.
fn play<W: Write>(out: &mut W, player: Player, pack: &[u8]) -> io::Result<()>
    ensures { open_of pack.now ≡ accepted player
        → OnOk result (Appends (W.contents out.old) (W.contents out.new) (played pack.now)) }
{
    let mut page = [0u8; PAGE];
    let mut forward = [0u8; LINE];
    let mut back = [0u8; LINE];
    let mut buffer = [0u8; BUFFER];
    let begun = player.begin(pack, &mut forward, &mut page);
    show(out, &page, begun.written)?;
    play_events(
        out,
        begun.player,
        pack,
        &mut buffer,
        &mut forward,
        &mut back,
        &mut page,
    )
}

// A pack that is refused.
fn refuse<W: Write>(out: &mut W, refusal: Refusal) -> io::Result<()>
    ensures { OnOk result (Appends (W.contents out.old) (W.contents out.new) (refused_text (number_of refusal))) }
{
    let mut page = [0u8; 32];
    let written = text::refused_line(u8::from(refusal), &mut page, 0);
    show(out, &page, written)
}

fn print_pack<W: Write>(out: &mut W, pack: &[u8]) -> io::Result<()>
    ensures { OnOk result (Appends (W.contents out.old) (W.contents out.new) (played pack.now)) }
{
    match Player::open(pack) {
        Ok(player) => play(out, player, pack),
        Err(refusal) => refuse(out, refusal),
    }
}

// What is printed of an input is what is played of its bytes, whatever they are.
pub fn run<R: Read, W: Write>(input: &mut R, out: &mut W) -> io::Result<()>
    ensures { OnOk result (IfSome (R.remaining input.old)
        (λ given. Appends (W.contents out.old) (W.contents out.new) (played given))) }
{
    let mut buffer = [0u8; MOST];
    let given = read_full(input, &mut buffer)?;
    print_pack(out, &buffer[..given])
}

fn main(rt: HostRuntime) -> io::Result<()> {
    run(&mut rt.stdin(), &mut rt.stdout())
}
