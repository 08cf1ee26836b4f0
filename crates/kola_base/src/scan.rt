//! The longest piece at the front of a text.

ghost use Rattle.std.specs.Prelude.{◌≡◌, ◌<◌, ◌^◌, ◌≤◌, length, map, IfSome, IfNone, false, not, ◌&&◌};
ghost use Rattle.std.specs.List.{prefix_len};
ghost use Rattle.kola_base.specs.Pieces.{class, goes_on, IsLongest, NoPiece};
ghost use Rattle.kola_base.specs.Scanning.{first_by, first_piece, next_class, is_line_end, is_quote, is_backslash, string_len};

use crate::class::{Class, class_of};

/// What a piece of a text is.
#[derive(Clone, Copy, Debug, PartialEq, Eq)]
pub enum Sort {
    Blank,
    Comment,
    Word,
    Number,
    Quoted,
    Sign,
}

/// Whether a byte of the class goes on a piece of the sort.
fn goes_on(sort: Sort, class: Class) -> bool
    ensures { result ≡ goes_on sort class }
{
    match sort {
        Sort::Blank | Sort::Quoted | Sort::Sign => false,
        Sort::Comment => !matches!(class, Class::LineEnd),
        Sort::Word => matches!(class, Class::Letter | Class::Digit),
        Sort::Number => matches!(class, Class::Digit),
    }
}

/// How many bytes at the front go on a piece of the sort.
fn run_len(sort: Sort, bytes: &[u8]) -> usize
    ensures is { result ≡ prefix_len (goes_on sort) (map class bytes.now) }
    ensures within { result ≤ length bytes.now }
{
    bytes
        .iter()
        .map(|b| class_of(*b))
        .take_while(|class| goes_on(sort, *class))
        .count()
}

fn is_line_end(class: Class) -> bool
    ensures { result ≡ is_line_end class }
{
    matches!(class, Class::LineEnd)
}

/// Whether a byte of the class ends a string, where a backslash may have taken it.
fn ends_string(taken: bool, class: Class) -> bool
    ensures { result ≡ (not taken && is_quote class) }
{
    !taken && matches!(class, Class::Quote)
}

/// Whether a byte of the class takes the next one, where a backslash may have taken it.
fn takes_next(taken: bool, class: Class) -> bool
    ensures { result ≡ (not taken && is_backslash class) }
{
    !taken && matches!(class, Class::Backslash)
}

/// How many bytes up to the quote that ends a string, from behind its first quote; none where the line ends before.
fn string_len(rest: &[u8]) -> Option<usize>
    ensures is { result ≡ string_len false (map class rest.now) }
    ensures within { IfSome result (λ n. n ≤ length rest.now) }
{
    let mut taken = false;
    for at in 0..rest.len() {
        let class = class_of(rest[at]);
        if is_line_end(class) {
            return None;
        }
        if ends_string(taken, class) {
            return Some(at + 1);
        }
        taken = takes_next(taken, class);
    }
    None
}

/// The class of the byte that comes next.
fn next_class(rest: &[u8]) -> Class
    ensures { result ≡ next_class (map class rest.now) }
{
    match rest {
        [] => Class::Other,
        [next, ..] => class_of(*next),
    }
}

/// The first piece where bytes of these classes come first, and how many bytes it has.
fn first_by(first: Class, next: Class, rest: &[u8]) -> Option<(Sort, usize)>
    requires { length rest.now < 2 ^ 63 }
    ensures { result ≡ first_by first next (map class rest.now) }
{
    match (first, next) {
        (Class::Blank | Class::LineEnd, _) => Some((Sort::Blank, 1)),
        (Class::Slash, Class::Slash) => Some((Sort::Comment, 1 + run_len(Sort::Comment, rest))),
        (Class::Letter, _) => Some((Sort::Word, 1 + run_len(Sort::Word, rest))),
        (Class::Digit, _) | (Class::Minus, Class::Digit) => {
            Some((Sort::Number, 1 + run_len(Sort::Number, rest)))
        }
        (Class::Quote, _) => {
            let len = string_len(rest)?;
            Some((Sort::Quoted, 1 + len))
        }
        (Class::Less | Class::Greater | Class::Bang, Class::Equal)
        | (Class::Minus, Class::Greater)
        | (Class::Bar, Class::Bar) => Some((Sort::Sign, 2)),
        (Class::Single | Class::Less | Class::Greater | Class::Equal | Class::Bar, _) => {
            Some((Sort::Sign, 1))
        }
        _ => None,
    }
}

/// The first piece from left to right, and how many bytes it has.
fn first_piece(bytes: &[u8]) -> Option<(Sort, usize)>
    ensures { result ≡ first_piece (map class bytes.now) }
{
    let [first, rest @ ..] = bytes else {
        return None;
    };
    first_by(class_of(*first), next_class(rest), rest)
}

/// The longest piece at the front and how many bytes it has, or none where no piece stands there.
pub fn longest_piece(bytes: &[u8]) -> Option<(Sort, usize)>
    ensures some { IfSome result (λ p. IsLongest p.0 p.1 bytes.now) }
    ensures none { IfNone result (NoPiece bytes.now) }
{
    first_piece(bytes)
}
