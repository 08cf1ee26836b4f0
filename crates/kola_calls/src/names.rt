//! Names, texts, lists and tables of names.

use kola_core::{Items, Memory, Name, NameTable, Names, Path, Text};
use std::alloc::Global;
use std::test::Fail;

/// Whether the text is kept by a name, by a text, by their copies, and by the strings that they are made of and make.
fn is_kept(alloc: Global, text: &str) -> Result<bool, Memory> {
    let name = Name::from_text(alloc, text)?;
    let made = Name::from_string(name.to_string(alloc)?)?;
    let value = Text::from_text(alloc, text)?;
    Ok(made.copy()?.as_text() == text && value.copy()?.as_text() == text)
}

/// The number of entries of a list of one name, and of its copy.
fn lengths(alloc: Global, text: &str) -> Result<(usize, usize), Memory> {
    let mut names = Names::new(alloc);
    names.push(Name::from_text(alloc, text)?)?;
    Ok((names.len(), names.copy()?.len()))
}

#[test]
fn names_texts_and_lists(rt: HostRuntime) -> Result<(), Fail> {
    for text in ["", "Persons", "naïve", "a\"b"] {
        assert!(rt; is_kept(rt.alloc(), text)?, "{text}");
        assert_eq!(rt; lengths(rt.alloc(), text)?, (1, 1));
    }
    let mut path: Path = Items::new(rt.alloc());
    path.push(2)?;
    assert_eq!(rt; path.prefixed(1)?.copy()?.as_slice(), [1, 2].as_slice());
    Ok(())
}

#[test]
fn a_table_keeps_each_name_once(rt: HostRuntime) -> Result<(), Fail> {
    let mut table = NameTable::new(rt.alloc());
    for (name, new) in [("name", true), ("age", true), ("name", false), ("", true)] {
        assert_eq!(rt; table.add(name)?, new);
    }
    for (name, place) in [
        ("name", Some(0)),
        ("age", Some(1)),
        ("", Some(2)),
        ("ag", None),
    ] {
        assert_eq!(rt; table.place(name), place);
        assert_eq!(rt; table.holds(name), place.is_some());
    }
    Ok(())
}
