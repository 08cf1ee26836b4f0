//! Lists of entries, in which an entry is found by its name.
ghost use Rattle.std.specs.Prelude.{◌≡◌, map};
ghost use Rattle.std.specs.List.{find, list_any};
ghost use Rattle.std.specs.Option.{option_copied};
ghost use Rattle.std.specs.Str.{bytes_eq};
ghost use Rattle.kola_schema.specs.Schemas.{are_distinct};

use kola_core::Name;

/// The first entry of the name; `None` where there is none. It walks the list.
pub fn entry_named<'a, T>(entries: &'a [(Name, T)], name: &Name) -> Option<&'a (Name, T)>
    ensures { option_copied result ≡ find (λ e. bytes_eq name.now e.0) entries.now }
{
    entries.iter().find(|entry| name.is(&entry.0))
}

/// Whether an entry of the list has the label. It walks the list.
pub fn has_label<T>(entries: &[(Name, T)], label: &Name) -> bool
    ensures { result ≡ list_any (λ e. bytes_eq label.now e.0) entries.now }
{
    entries.iter().any(|entry| label.is(&entry.0))
}

/// Whether no two entries have one label. It takes no memory: it compares each label with each other, in time by the square of their number.
pub fn labels_are_distinct<T>(entries: &[(Name, T)]) -> bool
    ensures { result ≡ are_distinct (map (λ e. e.0) entries.now) }
{
    for i in 0..entries.len() {
        if has_label(&entries[i + 1..], &entries[i].0) {
            return false;
        }
    }
    true
}
