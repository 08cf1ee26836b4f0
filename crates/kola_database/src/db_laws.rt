//! Laws that tie a stored database to what a query means.
ghost use Rattle.std.specs.Prelude.{◌≡◌, ℕ, List, Some, IsPermutation, position, slice_get, option_and_then};
ghost use Rattle.std.specs.Str.{bytes_eq};
ghost use Rattle.kola_values.specs.Values.{VObj};
ghost use Rattle.kola_values.specs.Databases.{Class, Classes, Objects, look_up, value_or_unit, extent_class, attribute_of};
ghost use Rattle.kola_schema.specs.Meets.{Meets};
ghost use Rattle.kola_schema.specs.Schemas.{extent_names, names_of};
ghost use Rattle.kola_database.specs.Stored.{Database, IsUnder, extents_of, extent_in, extent_at, attribute_in, attribute_at};

/// The attribute that is found by class and id is the one that a query means. The extent of a name is the extent of the same class as in
/// the schema. Whether objects meet a schema does not depend on their order. And under the schema the look-ups by numbers, which are
/// places in the schema counted from 0, find what the look-ups by the names find.
pub fn stored_databases_keep_their_meaning()
    ensures attributes { (d : Objects) (a c : List ℕ) (i : ℕ) → attribute_of a d (VObj c i)
        ≡ value_or_unit (attribute_in d c i a) }
    ensures extents { (S : Classes) (e : List ℕ) → look_up e (extents_of S) ≡ extent_class S e }
    ensures order { (S : Classes) (d e : Objects) → IsPermutation d e → Meets S d → Meets S e }
    ensures extents_by_numbers { (S : Classes) (db : Database) (e : List ℕ) → IsUnder S db
        → option_and_then (extent_at db) (position (bytes_eq e) (extent_names S)) ≡ extent_in db e }
    ensures attributes_by_numbers { (S : Classes) (db : Database) (k : Class) (n i a : ℕ) (l : List ℕ) → IsUnder S db
        → slice_get S n ≡ Some k → slice_get (names_of k.attributes) a ≡ Some l → attribute_at db n i a
        ≡ attribute_in db.objects k.name i l }
{}
