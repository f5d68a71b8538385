ghost use Rattle.std.specs.Prelude.{map};
ghost use Rattle.cbor_fields.specs.Law.{FormsDetermine, FieldsPutBack};
ghost use Rattle.cbor_fields.specs.Views.{list_of};
ghost use Rattle.cbor_fields.specs.Written.{Determines};

use crate::form::Form;
use cbor_core::Item;

/// Of the items that bytes spell, one at most has a value in a form: the one that it is written as.
pub fn forms_determine()
    ensures { FormsDetermine }
{}

/// The same of lists of such a form.
pub fn lists_determine<V: Drop, F: Form<V>>()
    requires { Determines F.view F.written }
    ensures { Determines (list_of F.view) (λ values. Item.Array (map F.written values)) }
{}

/// A field that is put back makes the map again that it was left out of, where the keys ascend.
pub fn fields_put_back()
    ensures { FieldsPutBack }
{}
