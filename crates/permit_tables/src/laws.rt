//! Worked rows that the definitions compute to. Each function has an empty body: its clauses are the rows.

ghost use Rattle.permit_tables.specs.Rows.{TypeRows, PermissionRows};

/// The codes and the groups of the types, and cells of the permission table.
pub fn permission_rows()
    ensures types { TypeRows }
    ensures cells { PermissionRows }
{}
