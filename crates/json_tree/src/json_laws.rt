//! Laws of what a tree is written as, and of what is read back.
ghost use Rattle.std.specs.Prelude.{◌≡◌, List, [], ◌∷◌, map, true, false, IsTrue, codes};
ghost use Rattle.std.specs.FinMap as map_of;
ghost use Rattle.serde_json.specs.Data.{Data, boolean, string, array, object, null as empty, no_items, item, no_members, member};
ghost use Rattle.tree_model.specs.Key.{Key};
ghost use Rattle.tree_model.specs.Primitive.{Primitive, truth, words};
ghost use Rattle.tree_model.specs.Tree.{Tree, null, lone, IsLawful};
ghost use Rattle.tree_model.specs.Children.{graft, AreChildren};
ghost use Rattle.tree_model.specs.Draft.{Part, moment, Draft, null_draft, as_draft, IsLawfulDraft};
ghost use Rattle.json_tree.specs.Json.{is_lawful, of_json, data_of, members_of, value_of};
ghost use Rattle.json_tree.specs.Draft.{is_lawful_draft, draft_of_json, data_of_part, value_of_draft};

/// A primitive is written as itself, children as an object of theirs, and null as null.
pub fn what_a_tree_is_written_as()
    ensures primitive { (v : Primitive) → value_of (lone v) ≡ data_of v }
    ensures children { (cs : List (Key × Tree)) → AreChildren cs
        → value_of (graft cs) ≡ object (members_of (map (λ c. (c.0, value_of c.1)) cs)) }
    ensures nothing { value_of null ≡ empty }
{}

/// What a lawful tree is written as is lawful, and it is read as that tree again.
pub fn what_is_written_is_read_back()
    ensures tree { (t : Tree) → IsLawful t → of_json (value_of t) ≡ t }
    ensures lawful { (t : Tree) → IsLawful t → IsTrue (is_lawful (value_of t)) }
{}

/// A part of a draft is written as its primitive or as the form, children as an object of theirs, nothing as null, and
/// a tree as without moments.
pub fn what_a_draft_is_written_as()
    ensures part { (p : Part) → value_of_draft (lone p) ≡ data_of_part p }
    ensures children { (cs : List (Key × Draft)) → AreChildren cs
        → value_of_draft (graft cs) ≡ object (members_of (map (λ c. (c.0, value_of_draft c.1)) cs)) }
    ensures nothing { value_of_draft null_draft ≡ empty }
    ensures tree { (t : Tree) → value_of_draft (as_draft t) ≡ value_of t }
{}

/// What a lawful draft is written as gives a draft, and it is read as that draft again.
pub fn a_written_draft_is_read_back()
    ensures draft { (d : Draft) → IsLawfulDraft d → draft_of_json (value_of_draft d) ≡ d }
    ensures lawful { (d : Draft) → IsLawfulDraft d → IsTrue (is_lawful_draft (value_of_draft d)) }
{}

/// An array is the object of its indices, what is null or empty is nothing, and objects nest.
pub fn what_a_value_describes()
    ensures indices { of_json (array (item empty (item (string (codes "x")) no_items))) ≡ map_of.from_entries ((codes "1" ∷ [], words (codes "x")) ∷ []) }
    ensures nested { of_json (object (member (codes "a") (object (member (codes "b") (boolean true) no_members)) no_members)) ≡ map_of.from_entries ((codes "a" ∷ codes "b" ∷ [], truth true) ∷ []) }
    ensures nothing { of_json empty ≡ null }
    ensures no_members { of_json (object (member (codes "a") (array no_items) no_members)) ≡ null }
{}

/// A lawful value is, as a draft, the tree that it describes at each moment.
pub fn a_lawful_value_is_its_tree()
    ensures lawful { (d : Data) → IsTrue (is_lawful d) → IsTrue (is_lawful_draft d) }
    ensures tree { (d : Data) → IsTrue (is_lawful d) → draft_of_json d ≡ as_draft (of_json d) }
{}

/// The form stands for the moment wherever a primitive may stand. No other object has its key, and in a tree
/// not even the form stands.
pub fn what_the_form_describes()
    ensures form { draft_of_json (object (member (codes ".sv") (string (codes "timestamp")) no_members)) ≡ lone moment }
    ensures in_an_array { draft_of_json (array (item (object (member (codes ".sv") (string (codes "timestamp")) no_members)) no_items)) ≡ map_of.from_entries ((codes "0" ∷ [], moment) ∷ []) }
    ensures another_text { is_lawful_draft (object (member (codes ".sv") (string (codes "x")) no_members)) ≡ false }
    ensures second_member { is_lawful_draft (object (member (codes ".sv") (string (codes "timestamp")) (member (codes "a") (boolean true) no_members))) ≡ false }
    ensures in_a_tree { is_lawful (object (member (codes ".sv") (string (codes "timestamp")) no_members)) ≡ false }
{}
