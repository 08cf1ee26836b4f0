//! Terms that give pairs.
ghost use Rattle.std.specs.Prelude.{IfSome};
ghost use Rattle.kola_term.specs.TermView.{fun_tree};
ghost use Rattle.kola_eval.specs.Lending.{lent_tree};
ghost use Rattle.kola_eval.specs.Evaluating.{Splits};

use crate::lent::{Lent, first, second};
use kola_term::Fun;

/// Two functions, each with the value that it is for.
#[derive(Clone, Copy)]
pub(crate) struct Parts<'a> {
    pub(crate) f: &'a Fun,
    pub(crate) x: Lent<'a>,
    pub(crate) g: &'a Fun,
    pub(crate) y: Lent<'a>,
}

// The two functions of a pair, or of a product.
pub(crate) fn pairing<'a>(g: &'a Fun, x: Lent<'a>) -> Option<Parts<'a>>
    ensures { IfSome result (Splits (fun_tree g.now) (lent_tree x.entry)) }
{
    match g {
        Fun::Pair(f, g) => Some(Parts { f, x, g, y: x }),
        Fun::Times(f, g) => Some(Parts {
            f,
            x: first(x),
            g,
            y: second(x),
        }),
        _ => None,
    }
}
