// The kinds of forms.
ghost use Rattle.std.specs.Prelude.{◌≡◌};
ghost use Rattle.term_forms.specs.SeenForms.{heap_form};
ghost use Rattle.heap_graph.specs.Cells.{kind_of};

use cell_records::Kind;
use term_forms::shapes::Form;

/// Which kind of form it is.
pub fn kind_of(form: &Form<'_>) -> Kind
    ensures { result ≡ kind_of (heap_form form.now) }
{
    match form {
        Form::List(_, _) => Kind::List,
        Form::Tuple(_) => Kind::Tuple,
        Form::Float(_) => Kind::Float,
        Form::Long(_) => Kind::Long,
        Form::Pid(_) => Kind::Pid,
        Form::Port(_) => Kind::Port,
        Form::Ext(_, _) => Kind::Ext,
        Form::HeapBin(_, _) => Kind::HeapBin,
        Form::RefBin(_, _, _) => Kind::RefBin,
        Form::SubBin(_, _, _) => Kind::SubBin,
        Form::Flat(_, _) => Kind::Flat,
        Form::Hash(_, _) => Kind::Hash,
        Form::Node(_) => Kind::Node,
    }
}
