// The board and its calls.
ghost use Rattle.std.specs.Prelude.{◌≡◌, ◌≤◌, ◌++◌, [], ◌∷◌, IfOk};
ghost use Rattle.monitors.specs.Posted.{IsLater, IsPrefix, OneIsPrefix, last_of};

use crate::rule::{Cell, Part, Post, Read, Settle, Tell};
use crate::words::{from_words, to_words};
use crate::{MonitorPass, Note, WriterPass};
use dta_model::Eight;
use std::alloc::AllocError;
use std::marker::Model;
use std::sync::Wait;

/// A board that shows the state posted last, and zeros before the first. To a contract it is the
/// name that its passes and notes carry.
#[derive(Drop)]
pub struct Board {
    cell: Cell,
}

impl Model for Board {
    ghost use Rattle.atomic_table.specs.Seated.{TableId, table_id_coded};

    ghost Value = { TableId };

    ghost coded = { table_id_coded };

    ghost view = { λ b. b.cell.table.shared.table_id };
}

impl Board {
    /// A board with nothing posted, its writer's pass, and a first pass for monitors.
    #[tactic(auto, using(crate::proofs::Keeps::keeps))]
    pub fn new<R: AllocGlobal + Wait>(
        rt: &R,
    ) -> Result<(Board, WriterPass, MonitorPass), AllocError>
        ensures writer { IfOk result (λ r. (r.1.board ≡ r.0) × (r.1.list ≡ [])) }
        ensures monitor { IfOk result (λ r. (r.2.board ≡ r.0) × (r.2.list ≡ [])) }
    {
        let (cell, mut pass) = Cell::ruled(rt.alloc(), [0; 8])?;
        let monitor = cell.split_pass::<Part>(&mut pass);
        Ok((
            Board { cell },
            WriterPass { pass },
            MonitorPass { pass: monitor },
        ))
    }

    /// Posts a state of more steps than those posted before.
    pub fn post<R: Wait>(&self, rt: &R, pass: &mut WriterPass, eight: Eight)
        requires own { pass.old.board ≡ self.now }
        requires later { IsLater eight pass.old.list }
        ensures board { pass.new.board ≡ pass.old.board }
        ensures list { pass.new.list ≡ pass.old.list ++ eight ∷ [] }
    {
        self.cell
            .swap_as::<Post, R>(rt, &mut pass.pass, to_words(eight));
    }

    /// The state that the board shows: one that was posted or, before the first, zeros.
    #[tactic(auto, using(crate::proofs::Keeps::keeps))]
    pub fn read<R: Wait>(&self, rt: &R, pass: &mut MonitorPass) -> Eight
        requires own { pass.old.board ≡ self.now }
        ensures board { pass.new.board ≡ pass.old.board }
        ensures list { IsPrefix pass.old.list pass.new.list }
        ensures last { result ≡ last_of pass.new.list }
        ensures onward { (last_of pass.old.list).steps ≤ result.steps }
    {
        let words = self.cell.load_as::<Read, R>(rt, &mut pass.pass);
        from_words(words)
    }

    /// Makes two passes of one. Both know what it knew.
    #[tactic(auto, using(crate::proofs::Keeps::keeps))]
    pub fn split<R: Wait>(&self, _rt: &R, pass: MonitorPass) -> (MonitorPass, MonitorPass)
        requires own { pass.board ≡ self.now }
        ensures first { result.0 ≡ pass }
        ensures second { result.1 ≡ pass }
    {
        let MonitorPass { mut pass } = pass;
        let second = self.cell.split_pass::<Part>(&mut pass);
        (MonitorPass { pass }, MonitorPass { pass: second })
    }

    /// A note of what the writer posted.
    #[tactic(auto, using(crate::proofs::Keeps::keeps))]
    pub fn note<R: Wait>(&self, _rt: &R, pass: WriterPass) -> (WriterPass, Note)
        requires own { pass.board ≡ self.now }
        ensures pass { result.0 ≡ pass }
        ensures note { result.1 ≡ pass }
    {
        let WriterPass { mut pass } = pass;
        let note = self.cell.split_pass::<Part>(&mut pass);
        (WriterPass { pass }, Note { pass: note })
    }

    /// A note of what a monitor knows.
    #[tactic(auto, using(crate::proofs::Keeps::keeps))]
    pub fn share<R: Wait>(&self, _rt: &R, pass: MonitorPass) -> (MonitorPass, Note)
        requires own { pass.board ≡ self.now }
        ensures pass { result.0 ≡ pass }
        ensures note { result.1 ≡ pass }
    {
        let MonitorPass { mut pass } = pass;
        let note = self.cell.split_pass::<Part>(&mut pass);
        (MonitorPass { pass }, Note { pass: note })
    }

    /// Lets a pass know what a note tells, beside what it knew.
    #[tactic(auto, using(crate::proofs::Keeps::keeps))]
    pub fn learn<R: Wait>(&self, rt: &R, pass: MonitorPass, note: Note) -> MonitorPass
        requires own { pass.board ≡ self.now }
        requires same { note.board ≡ self.now }
        ensures board { result.board ≡ pass.board }
        ensures knew { IsPrefix pass.list result.list }
        ensures learnt { IsPrefix note.list result.list }
        ensures ordered { OneIsPrefix pass.list note.list }
    {
        let MonitorPass { mut pass } = pass;
        let Note { pass: told } = note;
        self.cell.join_pass::<Tell>(&mut pass, told);
        self.cell.load_as::<Read, R>(rt, &mut pass);
        MonitorPass { pass }
    }

    /// The state that the writer posted last, or zeros where it posted none. The pass knows
    /// exactly the writer's states then.
    #[tactic(auto, using(crate::proofs::Keeps::keeps))]
    pub fn settle<R: Wait>(
        &self,
        rt: &R,
        writer: WriterPass,
        pass: MonitorPass,
    ) -> (WriterPass, MonitorPass, Eight)
        requires own { writer.board ≡ self.now }
        requires same { pass.board ≡ self.now }
        ensures writer { result.0 ≡ writer }
        ensures knows { result.1 ≡ writer }
        ensures knew { IsPrefix pass.list writer.list }
        ensures last { result.2 ≡ last_of writer.list }
        ensures onward { (last_of pass.list).steps ≤ result.2.steps }
    {
        let WriterPass { pass: mut writer } = writer;
        let MonitorPass { mut pass } = pass;
        // A pass that has made a step can't be told, and a new part of it can.
        let known = self.cell.split_pass::<Part>(&mut pass);
        self.cell.join_pass::<Tell>(&mut writer, known);
        let last = self.cell.load_as::<Settle, R>(rt, &mut writer);
        let settled = self.cell.split_pass::<Part>(&mut writer);
        (
            WriterPass { pass: writer },
            MonitorPass { pass: settled },
            from_words(last),
        )
    }
}
