//! The trees of queries.
#![tactic(auto)]

mod query;

pub use query::{
    BoxedExpr, Chain, Expr, Form, Labels, Lit, LitList, NamedExprs, Query, Ranges, SetChain, Sign,
    StructList,
};
