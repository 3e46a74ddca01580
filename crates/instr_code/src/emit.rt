ghost use Rattle.std.specs.Prelude.{◌≡◌, ◌<◌, ◌≤◌, ◌+◌, ◌^◌, [], ◌∷◌, ◌++◌, IfOk, OnOk, length, map};
ghost use Rattle.std.specs.List.{flat_map};
ghost use Rattle.sheet_model.specs.Body.{all_of};
ghost use Rattle.instr_code.specs.Piece.{alone, in_order};
ghost use Rattle.instr_code.specs.Layout.{body_piece, branches, choice_ops, choices_ops, for_each_ops, list_piece, piece_of, pieces, round_ops, while_ops};
ghost use Rattle.instr_code.specs.Emitting.{Fills, HasRoom, Puts, inner_ops, listed};

use crate::code::Op;
use crate::inner::{Inner, take_inner};
use sheet_model::Instr;
use std::alloc::Global;
use stx_base::{List, Memory};

/// The operations so far, and the instructions of which they are.
#[derive(Drop)]
pub struct Emitter {
    alloc: Global,
    ops: List<Op>,
    instrs: List<Instr>,
}

impl Emitter {
    /// Allocates nothing.
    pub fn new(alloc: Global) -> Emitter
        ensures ops { result.ops ≡ [] }
        ensures instrs { result.instrs ≡ [] }
    {
        Emitter {
            alloc,
            ops: List::new(alloc),
            instrs: List::new(alloc),
        }
    }

    /// The place of the next operation.
    pub fn place(&self) -> u32
        requires { length self.now.ops < 2 ^ 32 }
        ensures { result ≡ length self.now.ops }
    {
        self.ops.len() as u32
    }

    pub fn into_lists(self) -> (List<Op>, List<Instr>)
        ensures ops { result.0 ≡ self.ops }
        ensures instrs { result.1 ≡ self.instrs }
    {
        let Emitter { ops, instrs, .. } = self;
        (ops, instrs)
    }

    /// A body, with its end.
    pub fn put_body(&mut self, body: List<Instr>) -> Result<(), Memory>
        requires { HasRoom (body_piece body) self.old }
        ensures { OnOk result (Puts (body_piece body) (all_of body) self.old self.new) }
    {
        self.put_all(body)?;
        self.emit(Op::Return)
    }

    /// A list inside an instruction: its end takes off the locals that it leaves, and so many that were made for it.
    #[cycle(emit)]
    fn put_list(&mut self, list: List<Instr>, own: u32) -> Result<(), Memory>
        requires room { HasRoom (list_piece own list) self.old }
        requires own { own < 2 }
        ensures { OnOk result (Puts (list_piece own list) (all_of list) self.old self.new) }
    {
        let count = self.put_all(list)? + own;
        if count > 0 {
            self.emit(Op::Drop { count })?;
        }
        Ok(())
    }

    /// Instructions in order; how many locals they leave.
    #[cycle(emit)]
    fn put_all(&mut self, list: List<Instr>) -> Result<u32, Memory>
        requires { HasRoom (in_order (pieces list)) self.old }
        ensures ok { OnOk result (Puts (in_order (pieces list)) (all_of list) self.old self.new) }
        ensures locals { IfOk result (λ left. left ≡ (in_order (pieces list)).locals) }
    {
        let mut left = 0;
        for instr in list.into_vec() {
            left += self.put(instr)?;
        }
        Ok(left)
    }

    /// An instruction; how many locals it leaves.
    #[cycle(emit)]
    fn put(&mut self, mut instr: Instr) -> Result<u32, Memory>
        requires { HasRoom (piece_of instr) self.old }
        ensures ok { OnOk result (Puts (piece_of instr) (all_of (instr ∷ [])) self.old self.new) }
        ensures locals { IfOk result (λ left. left ≡ (piece_of instr).locals) }
    {
        let number = self.instrs.len() as u32;
        let inner = take_inner(self.alloc, &mut instr)?;
        let locals = inner.locals();
        self.instrs.push(instr)?;
        self.put_ops(number, inner)?;
        Ok(locals)
    }

    /// The operations of an instruction, by its number.
    #[cycle(emit)]
    fn put_ops(&mut self, instr: u32, inner: Inner) -> Result<(), Memory>
        requires { HasRoom (inner_ops inner instr (length self.old.ops)) self.old }
        ensures { OnOk result (Puts (inner_ops inner instr (length self.old.ops)) (all_of (listed inner)) self.old self.new) }
    {
        match inner {
            Inner::Nothing => self.emit(Op::Do { instr }),
            Inner::Local => self.emit(Op::Do { instr }),
            Inner::Round(body) => self.put_round(instr, body),
            Inner::Choice(body, other) => self.put_choice(instr, body, other),
            Inner::Choices(bodies, other) => self.put_choices(instr, bodies, other),
            Inner::While(body) => self.put_while(instr, body),
            Inner::ForEach(body) => self.put_for_each(instr, body),
        }
    }

    #[cycle(emit)]
    fn put_round(&mut self, instr: u32, body: List<Instr>) -> Result<(), Memory>
        requires { HasRoom (round_ops (list_piece 0 body) instr (length self.old.ops)) self.old }
        ensures { OnOk result (Puts (round_ops (list_piece 0 body) instr (length self.old.ops)) (all_of body) self.old self.new) }
    {
        let open = self.reserve()?;
        self.put_list(body, 0)?;
        self.emit(Op::Close { instr })?;
        let to = self.place();
        self.fill(open, Op::Open { instr, to });
        Ok(())
    }

    #[cycle(emit)]
    fn put_choice(
        &mut self,
        instr: u32,
        body: List<Instr>,
        other: List<Instr>,
    ) -> Result<(), Memory>
        requires { HasRoom (choice_ops (list_piece 0 body) (list_piece 0 other) instr (length self.old.ops)) self.old }
        ensures { OnOk result (Puts (choice_ops (list_piece 0 body) (list_piece 0 other) instr (length self.old.ops)) (all_of (body ++ other)) self.old self.new) }
    {
        let test = self.reserve()?;
        self.put_list(body, 0)?;
        let jump = self.reserve()?;
        let to = self.place();
        self.put_list(other, 0)?;
        let end = self.place();
        self.fill(jump, Op::Jump { to: end });
        self.fill(test, Op::Test { instr, arm: 0, to });
        Ok(())
    }

    /// All branches leave by one jump that stands before them, so that one place alone is filled behind them.
    #[cycle(emit)]
    fn put_choices(
        &mut self,
        instr: u32,
        bodies: List<List<Instr>>,
        other: List<Instr>,
    ) -> Result<(), Memory>
        requires { HasRoom (choices_ops (map (list_piece 0) bodies) (list_piece 0 other) instr (length self.old.ops)) self.old }
        ensures { OnOk result (Puts (choices_ops (map (list_piece 0) bodies) (list_piece 0 other) instr (length self.old.ops)) (all_of (flat_map (λ b. b) bodies ++ other)) self.old self.new) }
    {
        self.emit(Op::Begin { instr })?;
        let first = self.place() + 2;
        self.emit(Op::Jump { to: first })?;
        let out = self.reserve()?;
        self.put_branches(instr, out as u32, bodies)?;
        self.put_list(other, 0)?;
        let to = self.place();
        self.fill(out, Op::Jump { to });
        Ok(())
    }

    /// Branches that leave by the jump at `out`.
    #[cycle(emit)]
    fn put_branches(
        &mut self,
        instr: u32,
        out: u32,
        bodies: List<List<Instr>>,
    ) -> Result<(), Memory>
        requires { HasRoom (branches instr 0 out (length self.old.ops) (map (list_piece 0) bodies)) self.old }
        ensures { OnOk result (Puts (branches instr 0 out (length self.old.ops) (map (list_piece 0) bodies)) (all_of (flat_map (λ b. b) bodies)) self.old self.new) }
    {
        let mut arm = 0;
        for body in bodies.into_vec() {
            self.put_branch(instr, arm, out, body)?;
            arm += 1;
        }
        Ok(())
    }

    #[cycle(emit)]
    fn put_branch(
        &mut self,
        instr: u32,
        arm: u32,
        out: u32,
        body: List<Instr>,
    ) -> Result<(), Memory>
        requires { HasRoom (branches instr arm out (length self.old.ops) (list_piece 0 body ∷ [])) self.old }
        ensures { OnOk result (Puts (branches instr arm out (length self.old.ops) (list_piece 0 body ∷ [])) (all_of body) self.old self.new) }
    {
        let test = self.reserve()?;
        self.put_list(body, 0)?;
        self.emit(Op::Jump { to: out })?;
        let to = self.place();
        self.fill(test, Op::Test { instr, arm, to });
        Ok(())
    }

    #[cycle(emit)]
    fn put_while(&mut self, instr: u32, body: List<Instr>) -> Result<(), Memory>
        requires { HasRoom (while_ops (list_piece 0 body) instr (length self.old.ops)) self.old }
        ensures { OnOk result (Puts (while_ops (list_piece 0 body) instr (length self.old.ops)) (all_of body) self.old self.new) }
    {
        self.emit(Op::Begin { instr })?;
        let again = self.place();
        let test = self.reserve()?;
        self.put_list(body, 0)?;
        self.emit(Op::Jump { to: again })?;
        let to = self.place();
        self.fill(test, Op::Test { instr, arm: 0, to });
        Ok(())
    }

    #[cycle(emit)]
    fn put_for_each(&mut self, instr: u32, body: List<Instr>) -> Result<(), Memory>
        requires { HasRoom (for_each_ops (list_piece 1 body) instr (length self.old.ops)) self.old }
        ensures { OnOk result (Puts (for_each_ops (list_piece 1 body) instr (length self.old.ops)) (all_of body) self.old self.new) }
    {
        self.emit(Op::Begin { instr })?;
        let again = self.place();
        let turn = self.reserve()?;
        self.put_list(body, 1)?;
        self.emit(Op::Jump { to: again })?;
        let to = self.place();
        self.fill(turn, Op::Turn { instr, to });
        Ok(())
    }

    fn emit(&mut self, op: Op) -> Result<(), Memory>
        ensures { OnOk result (Puts (alone op) [] self.old self.new) }
    {
        self.ops.push(op)
    }

    /// Keeps a place for an operation that is known later.
    fn reserve(&mut self) -> Result<usize, Memory>
        ensures ok { OnOk result (Puts (alone Op.Return) [] self.old self.new) }
        ensures place { IfOk result (λ place. place ≡ length self.old.ops) }
    {
        let place = self.ops.len();
        self.ops.push(Op::Return)?;
        Ok(place)
    }

    fn fill(&mut self, place: usize, op: Op)
        requires { place < length self.old.ops }
        ensures { Fills place op self.old self.new }
    {
        self.ops.set(place, op);
    }
}
