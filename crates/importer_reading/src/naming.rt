// The two names of a term.
ghost use Rattle.std.specs.Prelude.{◌≡◌, List, ◌-◌, ◌≤◌, length};
ghost use Rattle.rules.specs.Kiss2.{Field};
ghost use Rattle.importer_lines.specs.Parts.{bytes_at, FieldIn};
ghost use Rattle.importer_names.specs.Names.{NamesAt};
ghost use Rattle.importer_reading.specs.Both.{BothAs, SomeNames};

use importer_lines::Part;
use importer_names::number_name;

// The numbers of both names, the current state's first, and how many names there are then; nothing where there is no room for both. Those that
// are new are put behind the others.
pub fn number_both(
    text: &[u8],
    current: Part,
    next: Part,
    names: &mut [u8],
    lengths: &mut [u8],
    count: usize,
) -> Option<(usize, usize, usize)>
    requires field_in { FieldIn text.now current × (current.end - current.start ≤ 16) × FieldIn text.now next × (next.end - next.start ≤ 16) }
    requires some_names { SomeNames names.old lengths.old count }
    ensures { (l : List Field) → NamesAt names.old lengths.old l → length l ≡ count → BothAs l (bytes_at text.now current) (bytes_at text.now next) names.new lengths.new result }
{
    let (one, more) = number_name(text, current, names, lengths, count)?;
    let (other, all) = number_name(text, next, names, lengths, more)?;
    Some((one, other, all))
}
