ghost use Rattle.std.specs.Prelude.{◌≡◌, [], ◌∷◌};
ghost use Rattle.sheet_loader.specs.Making.{is_a_param, last_of};
ghost use Rattle.sheet_loader.specs.Meant.{before_of, item_of};

use crate::inside::Before;
use sheet_model::{Instr, Variable, When, WithParam};
use stx_base::{List, Name, Place, Text};
use stxpath_syntax::Expr;

/// What a node of a list comes to.
#[derive(Debug, Drop)]
pub enum Item {
    Instruction(Instr),
    /// An if, before it is known whether an else stands behind it.
    If {
        test: Expr,
        body: List<Instr>,
        at: Place,
    },
    Else(List<Instr>),
    /// A variable of a body.
    Local {
        name: Name,
        select: Option<Expr>,
        at: Place,
    },
    Branch(When),
    Otherwise(List<Instr>),
    Param(Variable),
    Value(WithParam),
    Text(Text),
}

impl Item {
    /// What stands directly before what comes behind it.
    pub fn before(&self) -> Before
        ensures { before_of result ≡ last_of (item_of self.now ∷ []) }
    {
        match self {
            Item::If { .. } => Before::AfterIf,
            Item::Otherwise(_) => Before::AfterOtherwise,
            _ => Before::Something,
        }
    }

    pub fn is_param(&self) -> bool
        ensures { result ≡ is_a_param (item_of self.now) }
    {
        match self {
            Item::Param(_) => true,
            _ => false,
        }
    }
}
