//! From a capture to the key file of what was typed.

ghost use Rattle.std.specs.Prelude.{◌≡◌, ◌<◌, length, None, IfErr, IfOk, OnOk};
ghost use Rattle.capture_vcd.specs.Reads.{reads_of};
ghost use Rattle.capture_frames.specs.Listening.{at_first};
ghost use Rattle.capture_lines.specs.Captures.{both, found_by, listed};
ghost use Rattle.layout_reader.specs.Layouts.{IsKeyLayout};
ghost use Rattle.capture_keys.specs.KeyTexts.{history_of_keys, key_text};
ghost use Rattle.capture_keys.specs.Laws.{IsFaultOf, Plays};
ghost use Rattle.capture_keys.specs.Typed.{before_all, followed, followed_all, keys_of};

use crate::codes::Codes;
use crate::fault::CaptureFault;
use crate::key_text::key_text;
use crate::keys::Keys;
use capture_frames::{Listener, Said, Timed};
use capture_vcd::{Reader, VcdFault};
use layout_reader::Layout;
use std::alloc::{AllocError, Global};
use std::marker::Model;

/// What was heard so far, and the keys.
#[derive(Drop)]
struct Typist {
    codes: Codes,
    keys: Keys,
}

impl Model for Typist {
    ghost use Rattle.capture_keys.specs.Typed as typed;

    ghost Value = { typed.Typist };

    ghost view = { λ t. record { codes = t.codes; keys = t.keys } };
}

impl Typist {
    /// Before anything is heard.
    fn new(alloc: Global) -> Typist
        ensures { result ≡ before_all }
    {
        Typist {
            codes: Codes::new(),
            keys: Keys::new(alloc),
        }
    }

    /// Follows a finding.
    fn follow(&mut self, layout: &Layout, timed: Timed) -> Result<(), AllocError>
        ensures { OnOk result (self.new ≡ followed layout.now timed self.old) }
    {
        let code = self.codes.code(timed);
        self.codes = self.codes.after(timed);
        self.keys.take_if(layout, code)
    }

    /// Follows a finding, if there is one.
    fn follow_if(&mut self, layout: &Layout, timed: Option<Timed>) -> Result<(), AllocError>
        ensures { OnOk result (self.new ≡ followed_all layout.now (listed timed) self.old) }
    {
        match timed {
            Some(timed) => self.follow(layout, timed),
            None => Ok(()),
        }
    }

    /// Follows what a pulse ends, and what it is itself.
    #[tactic(auto, using(crate::proofs::Parts::followed_twice))]
    fn follow_said(&mut self, layout: &Layout, said: Said) -> Result<(), AllocError>
        ensures { OnOk result (self.new ≡ followed_all layout.now (both said.frame said.pulse) self.old) }
    {
        self.follow_if(layout, said.frame)?;
        self.follow_if(layout, said.pulse)?;
        Ok(())
    }

    /// Follows all that is found in what is left of a dump, up to its first fault, which is answered.
    #[tactic(auto, using(crate::proofs::Parts::followed_further))]
    fn follow_samples(
        &mut self,
        layout: &Layout,
        reader: &mut Reader<'_>,
    ) -> Result<Option<VcdFault>, AllocError>
        ensures followed { OnOk result (self.new ≡ followed_all layout.now (found_by at_first reader.old.samples) self.old) }
        ensures fault { IfOk result (λ fault. fault ≡ reader.old.fault) }
    {
        let mut listener = Listener::new();
        'samples: loop {
            match reader.next_sample() {
                Ok(Some(sample)) => {
                    let said = listener.hear(sample.time, sample.lines);
                    self.follow_said(layout, said)?;
                }
                Ok(None) => {
                    self.follow_said(layout, listener.end())?;
                    return Ok(None);
                }
                Err(fault) => {
                    self.follow_said(layout, listener.end())?;
                    return Ok(Some(fault));
                }
            }
        }
    }
}

/// The keys of a dump with these names of the clock and of the data wire, or its first fault.
#[tactic(auto, unfolding(crate::specs::Typed::keys_of))]
fn follow_dump(
    alloc: Global,
    layout: &Layout,
    dump: &[u8],
    clk: &[u8],
    dat: &[u8],
) -> Result<Keys, CaptureFault>
    requires { length dump.now < 4294967295 }
    ensures keys { IfOk result (λ keys. keys ≡ keys_of layout.now clk.now dat.now dump.now) }
    ensures faultless { IfOk result (λ keys. (reads_of clk.now dat.now dump.now).fault ≡ None) }
    ensures fault { IfErr result (IsFaultOf (reads_of clk.now dat.now dump.now).fault) }
{
    let mut reader = Reader::new(dump, clk, dat);
    let mut typist = Typist::new(alloc);
    if let Some(fault) = typist.follow_samples(layout, &mut reader)? {
        return Err(CaptureFault::Dump(fault));
    }
    let Typist { keys, .. } = typist;
    Ok(keys)
}

/// A layout is one of which the laws of key files speak.
fn is_layout(layout: &Layout)
    ensures { IsKeyLayout layout.now }
{
    let _ = layout.rate();
    let _ = layout.entries();
}

/// The key file of what was typed on a layout in a dump of fewer than 2^32 - 1 bytes with these names of the clock and of the
/// data wire.
///
/// A right frame of the keyboard with a code, 01 to 84, moves the first key of the layout that sends it without Fn: down,
/// or up after F0. A byte that came right already and that the host asked for again is left out, and so is a press of a key
/// that is down or a release of one that is up. Of a key that sends no break each code is a press and a release. A code
/// that no key sends is named once, in a comment.
///
/// The first edge has stamp 162,816, and the others are as far from it as in the capture, a stamp for 2.5 µs, but never
/// sooner than the keyboard can see them. So the text is a key file that is accepted for the layout. After 65,536 lines or
/// 600 seconds there is no room, and a last comment says so. `CaptureFault::Dump` is exactly the dump's first fault. Want
/// of memory may come with any dump, and says nothing of it.
pub fn typed_keys(
    alloc: Global,
    layout: &Layout,
    dump: &[u8],
    clk: &[u8],
    dat: &[u8],
) -> Result<Vec<u8>, CaptureFault>
    requires size { length dump.now < 4294967295 }
    ensures text { IfOk result (λ text. text.items ≡ key_text (keys_of layout.now clk.now dat.now dump.now)) }
    ensures faultless { IfOk result (λ text. (reads_of clk.now dat.now dump.now).fault ≡ None) }
    ensures fault { IfErr result (IsFaultOf (reads_of clk.now dat.now dump.now).fault) }
    ensures plays { IfOk result (λ text.
        Plays layout.now (history_of_keys (keys_of layout.now clk.now dat.now dump.now)) text.items) }
{
    is_layout(layout);
    let keys = follow_dump(alloc, layout, dump, clk, dat)?;
    let text = key_text(alloc, &keys)?;
    Ok(text)
}
