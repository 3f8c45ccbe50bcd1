//! The lines of a script, obeyed in a session.

ghost use Rattle.std.specs.Prelude.{◌≡◌, ◌<◌, ◌++◌, None, length, map, IfOk, IfErr, OnOk, OnErr};
ghost use Rattle.joint_feed.specs.Stories.{state_at};
ghost use Rattle.debugger.specs.declared.rule.LineFault.TheVariants.{Memory};
ghost use Rattle.debugger.specs.Commands.{HasCell};
ghost use Rattle.debugger.specs.Lines.{IsLine};
ghost use Rattle.debugger.specs.Scripts.{missing};
ghost use Rattle.debugger.specs.Sessions.{debug};
ghost use Rattle.debugger.specs.Effects.{steps_text, shown, cell_shown, obeyed, line_effect};

use crate::command::Command;
use crate::listed::{arm_at, drop_at, tally_at};
use crate::rule::{LineFault, judged};
use crate::session::Session;
use crate::texts::{at_text, hit_text, number_text, ram_text, tally_text};
use mcs48_core::state_text;
use run_probes::Probe;
use std::alloc::{AllocError, Global};
use text_lines::is_blank_line;

/// Puts a text after what was printed.
fn append(out: &mut Vec<u8>, text: &[u8]) -> Result<(), LineFault>
    ensures put { OnOk result (out.new.items ≡ out.old.items ++ text.now) }
    ensures fault { IfErr result (λ fault. fault ≡ Memory) }
    ensures unchanged { OnErr result (out.new.items ≡ out.old.items) }
{
    match out.extend_from_slice(text) {
        Ok(()) => Ok(()),
        Err(_error) => Err(LineFault::Memory),
    }
}

impl Session {
    /// Where the steps led, and which probe was hit there, or else whether the run has ended.
    fn steps_text(&self, alloc: Global, hit: Option<usize>) -> Result<Vec<u8>, AllocError>
        ensures { IfOk result (λ text. text.items ≡ steps_text self.now.debuggee self.now.steps hit) }
    {
        match hit {
            None => at_text(alloc, self.steps(), self.has_ended()),
            Some(probe) => hit_text(alloc, probe as u64, self.steps()),
        }
    }

    /// The state's text.
    fn show(&self, alloc: Global) -> Result<Vec<u8>, AllocError>
        ensures { IfOk result (λ text. text.items ≡ shown self.now.steps (state_at self.now.debuggee.story self.now.steps)) }
    {
        let joint = self.joint();
        state_text(alloc, joint.mcu(), joint.steps(), joint.cycle())
    }

    /// A place of data memory.
    fn ram(&self, alloc: Global, cell: u8) -> Result<Vec<u8>, AllocError>
        requires { cell < 128 }
        ensures { IfOk result (λ text. text.items ≡ cell_shown cell (state_at self.now.debuggee.story self.now.steps)) }
    {
        let mcu = self.joint().mcu();
        ram_text(alloc, cell, mcu.ram[cell as usize])
    }

    /// Does what a line asks for, of which the probe is there, and gives what it prints. It is done if memory is
    /// lacking for that text, too.
    fn obey(
        &mut self,
        alloc: Global,
        command: Command,
        probes: &mut Vec<Box<dyn Probe>>,
    ) -> Result<Vec<u8>, AllocError>
        requires there { missing (length probes.old.items) command ≡ None }
        requires cell { HasCell command }
        ensures debuggee { self.new.debuggee ≡ self.old.debuggee }
        ensures obeyed { let before = debug self.old (map (λ b. watch b) probes.old.items) in
            let after = debug self.new (map (λ b. watch b) probes.new.items) in
            (obeyed self.old.debuggee command before).debug ≡ after }
        ensures text { let before = debug self.old (map (λ b. watch b) probes.old.items) in
            IfOk result (λ text. text.items ≡ (obeyed self.old.debuggee command before).text) }
    {
        match command {
            Command::Step(count) => {
                self.walk(count, probes);
                self.steps_text(alloc, None)
            }
            Command::Go(count) => {
                let hit = self.hunt(count, probes);
                self.steps_text(alloc, hit)
            }
            Command::Show => self.show(alloc),
            Command::Ram(cell) => self.ram(alloc, cell),
            Command::Arm { probe, a, b } => {
                arm_at(probes, probe as usize, a, b);
                number_text(alloc, b"armed ", u64::from(probe))
            }
            Command::Tell(probe) => {
                let tally = tally_at(probes, probe as usize);
                tally_text(alloc, u64::from(probe), tally)
            }
            Command::Drop(probe) => {
                drop_at(probes, probe as usize);
                number_text(alloc, b"dropped ", u64::from(probe))
            }
        }
    }

    /// Obeys a line of a script, and puts what it prints after `out`. A blank line does nothing. A line that breaks
    /// a rule changes nothing. If memory runs out for what it prints it is obeyed all the same, and `out` is as it
    /// was.
    pub fn line(
        &mut self,
        alloc: Global,
        text: &[u8],
        probes: &mut Vec<Box<dyn Probe>>,
        out: &mut Vec<u8>,
    ) -> Result<(), LineFault>
        ensures debuggee { self.new.debuggee ≡ self.old.debuggee }
        ensures line { let before = debug self.old (map (λ b. watch b) probes.old.items) in
            let after = debug self.new (map (λ b. watch b) probes.new.items) in
            IsLine (line_effect self.old.debuggee text.now before) before out.old.items result after out.new.items }
    {
        if is_blank_line(text) {
            return Ok(());
        }
        match judged(text, probes.len()) {
            Err(rule) => Err(rule.of_line()),
            Ok(command) => match self.obey(alloc, command, probes) {
                Err(_error) => Err(LineFault::Memory),
                Ok(effect_of) => append(out, effect_of.as_slice()),
            },
        }
    }
}
