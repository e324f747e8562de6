// FORMAT 6.3: where field j of a no sheet stands, which is where the first j end.
ghost use Rattle.std.specs.Prelude.{◌≤◌, ◌≡◌};
ghost use Rattle.page_meaning.specs.Limits.{most_vertices};
ghost use Rattle.page_sheets.specs.Rows.{field_at};

pub fn field_at(j: usize) -> usize
    requires { j ≤ most_vertices }
    ensures { result ≡ field_at j }
{
    8 + 4 * j
}
