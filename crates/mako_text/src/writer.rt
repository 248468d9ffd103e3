//! The writer of an output.

ghost use Rattle.std.specs.Prelude.{◌≡◌, ◌≤◌, ◌++◌, length, map, OnErr};
ghost use Rattle.std.specs.List.{flat_map, enumerate_from};
ghost use Rattle.mako_io.specs.Causes.{Rose};
ghost use Rattle.mako_model.specs.Fronts.{FollowsPrograms};
ghost use Rattle.mako_model.specs.Outcomes.{IsWhole, AreCyclesOfFront, reply_lists};
ghost use Rattle.mako_text.specs.Outputs.{cycle_text, freed_text, mutator_line, output_text};
ghost use Rattle.mako_text.specs.Written.{Writes, lines_text, sections_text, FitPrograms};

use crate::lines::{cycle_head, freed_bytes, last_bytes, mutator_bytes, point_line};
use crate::program::Program;
use crate::text::first_line;
use mako_io::{Sink, WriteFault, write_all};
use mako_model::{Call, Cycles, Outcome, Reply};
use mako_words::Name;

/// Writes the pieces of an output, and counts the bytes that went out, up to the greatest number.
#[derive(Drop)]
pub struct OutputWriter<'s, K> {
    sink: &'s mut K,
    went: usize,
}

impl<'s, K: Sink> OutputWriter<'s, K> {
    /// A writer that has written nothing.
    pub fn new(sink: &'s mut K) -> OutputWriter<'s, K>
        ensures same_sink { result.sink.ghost_name ≡ sink.entry.ghost_name }
        ensures kept { result.sink.now ≡ sink.old }
        ensures none { result.went ≡ 0 }
    {
        OutputWriter { sink, went: 0 }
    }

    /// Writes a piece. A fault has the count of all the bytes that went out.
    fn piece(&mut self, piece: &[u8]) -> Result<(), WriteFault>
        ensures same_sink { self.new.sink.ghost_name ≡ self.old.sink.ghost_name }
        ensures written { Writes K.taken piece.now self.old self.new result }
        ensures fault { OnErr result (Rose (K.faults self.old.sink.now) (K.faults self.new.sink.now)) }
        ensures counted { K.faults self.old.sink.now ≤ K.faults self.new.sink.now }
    {
        match write_all(self.sink, piece) {
            Ok(()) => {
                self.went = self.went.saturating_add(piece.len());
                Ok(())
            }
            Err(fault) => {
                self.went = self.went.saturating_add(fault.went);
                Err(WriteFault { went: self.went })
            }
        }
    }

    /// Writes a text, each line of it as a piece.
    pub fn text(&mut self, text: &[u8]) -> Result<(), WriteFault>
        ensures same_sink { self.new.sink.ghost_name ≡ self.old.sink.ghost_name }
        ensures written { Writes K.taken text.now self.old self.new result }
        ensures fault { OnErr result (Rose (K.faults self.old.sink.now) (K.faults self.new.sink.now)) }
        ensures counted { K.faults self.old.sink.now ≤ K.faults self.new.sink.now }
    {
        let mut rest = text;
        'lines: while !rest.is_empty() {
            let (line, after) = first_line(rest);
            self.piece(line)?;
            rest = after;
        }
        Ok(())
    }

    /// Writes a line for each reply.
    fn lines(&mut self, calls: &[Call], replies: &[Reply]) -> Result<(), WriteFault>
        requires { length replies.now ≤ length calls.now }
        ensures same_sink { self.new.sink.ghost_name ≡ self.old.sink.ghost_name }
        ensures written { Writes K.taken (lines_text calls.now replies.now) self.old self.new result }
        ensures fault { OnErr result (Rose (K.faults self.old.sink.now) (K.faults self.new.sink.now)) }
        ensures counted { K.faults self.old.sink.now ≤ K.faults self.new.sink.now }
    {
        for i in 0..replies.len() {
            let line = point_line(&calls[i], &replies[i]);
            self.piece(&line)?;
        }
        Ok(())
    }

    /// Writes the section of a mutator.
    fn section(
        &mut self,
        mutator: usize,
        calls: &[Call],
        replies: &[Reply],
    ) -> Result<(), WriteFault>
        requires { length replies.now ≤ length calls.now }
        ensures same_sink { self.new.sink.ghost_name ≡ self.old.sink.ghost_name }
        ensures written { Writes K.taken (mutator_line mutator ++ lines_text calls.now replies.now) self.old self.new
            result }
        ensures fault { OnErr result (Rose (K.faults self.old.sink.now) (K.faults self.new.sink.now)) }
        ensures counted { K.faults self.old.sink.now ≤ K.faults self.new.sink.now }
    {
        self.piece(&mutator_bytes(mutator))?;
        self.lines(calls, replies)
    }

    /// Writes the sections of all mutators.
    fn sections(&mut self, programs: &[Program], lists: &[Vec<Reply>]) -> Result<(), WriteFault>
        requires same { length lists.now ≡ length programs.now }
        requires fit { FitPrograms (map (λ p. p.calls) programs.now) (map (λ v. v.items) lists.now) }
        ensures same_sink { self.new.sink.ghost_name ≡ self.old.sink.ghost_name }
        ensures written { Writes K.taken
            (sections_text 0 (map (λ p. p.calls) programs.now) (map (λ v. v.items) lists.now)) self.old self.new
            result }
        ensures fault { OnErr result (Rose (K.faults self.old.sink.now) (K.faults self.new.sink.now)) }
        ensures counted { K.faults self.old.sink.now ≤ K.faults self.new.sink.now }
    {
        for m in 0..lists.len() {
            let program = &programs[m];
            let calls = &program.calls;
            let replies = &lists[m];
            self.section(m, calls, replies)?;
        }
        Ok(())
    }

    /// Writes each name behind a space.
    fn names(&mut self, names: &[Name]) -> Result<(), WriteFault>
        ensures same_sink { self.new.sink.ghost_name ≡ self.old.sink.ghost_name }
        ensures written { Writes K.taken (flat_map freed_text names.now) self.old self.new result }
        ensures fault { OnErr result (Rose (K.faults self.old.sink.now) (K.faults self.new.sink.now)) }
        ensures counted { K.faults self.old.sink.now ≤ K.faults self.new.sink.now }
    {
        for i in 0..names.len() {
            self.piece(&freed_bytes(names[i]))?;
        }
        Ok(())
    }

    /// Writes the line of a finished cycle, name by name since it may be long.
    fn cycle(&mut self, cycle: usize, names: &[Name]) -> Result<(), WriteFault>
        ensures same_sink { self.new.sink.ghost_name ≡ self.old.sink.ghost_name }
        ensures written { Writes K.taken (cycle_text (cycle, names.now)) self.old self.new result }
        ensures fault { OnErr result (Rose (K.faults self.old.sink.now) (K.faults self.new.sink.now)) }
        ensures counted { K.faults self.old.sink.now ≤ K.faults self.new.sink.now }
    {
        self.piece(&cycle_head(cycle))?;
        self.names(names)?;
        self.piece(b"\n")
    }

    /// Writes the lines of all finished cycles.
    fn cycles(&mut self, cycles: &Cycles) -> Result<(), WriteFault>
        ensures same_sink { self.new.sink.ghost_name ≡ self.old.sink.ghost_name }
        ensures written { Writes K.taken (flat_map cycle_text (enumerate_from 1 cycles.now.lists)) self.old
            self.new result }
        ensures fault { OnErr result (Rose (K.faults self.old.sink.now) (K.faults self.new.sink.now)) }
        ensures counted { K.faults self.old.sink.now ≤ K.faults self.new.sink.now }
    {
        for k in 0..cycles.len() {
            self.cycle(k + 1, cycles.freed(k + 1))?;
        }
        Ok(())
    }

    /// Writes the output of a run of these programs.
    pub fn output(
        &mut self,
        programs: &[Program],
        outcome: &Outcome,
        finished: bool,
    ) -> Result<(), WriteFault>
        requires whole { IsWhole outcome.now }
        requires freed { AreCyclesOfFront outcome.now }
        requires lists { length (reply_lists outcome.now) ≡ length programs.now }
        requires follows { FollowsPrograms (map (λ p. p.calls) programs.now) outcome.now.front.history }
        ensures same_sink { self.new.sink.ghost_name ≡ self.old.sink.ghost_name }
        ensures written { Writes K.taken (output_text (length programs.now) outcome.now.front finished) self.old
            self.new result }
        ensures fault { OnErr result (Rose (K.faults self.old.sink.now) (K.faults self.new.sink.now)) }
        ensures counted { K.faults self.old.sink.now ≤ K.faults self.new.sink.now }
    {
        self.sections(programs, &outcome.replies)?;
        self.cycles(&outcome.cycles)?;
        self.piece(last_bytes(finished))
    }
}
