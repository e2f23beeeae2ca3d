// Appending rows.
ghost use Rattle.std.specs.Prelude.{◌≡◌, [], ◌∷◌, ◌++◌, OnOk, IfErr};

use dump_io::ReadFault;

/// Appends a row.
pub(crate) fn push_row<T: Drop>(rows: &mut Vec<T>, row: T) -> Result<(), ReadFault>
    ensures rows { OnOk result (rows.new.items ≡ rows.old.items ++ row ∷ []) }
    ensures fault { IfErr result (λ fault. fault ≡ ReadFault.Memory) }
{
    match rows.push(row) {
        Ok(()) => Ok(()),
        Err(_) => Err(ReadFault::Memory),
    }
}
