// Local names: that of a row, and the row and the type that bear one in an SDS.
ghost use Rattle.std.specs.Prelude.{◌≡◌, ◌+◌, ◌<◌, length, IfSome};
ghost use Rattle.std.specs.Option.{unwrap_or};
ghost use Rattle.rules.specs.02-Limits.{limits};
ghost use Rattle.rules.specs.04-Schema.{holds_name};
ghost use Rattle.rules.specs.07-Picture.{Sound, base_length};
ghost use Rattle.rules.specs.Read.{strip, name_offset};
ghost use Rattle.rows.specs.Rows.{part};
ghost use Rattle.base.specs.Rows.{presence_at};
ghost use Rattle.base.specs.Back.{schema_of, presence_count, presence_shown};
ghost use Rattle.lookup.specs.Found.{NamedRow, NamedIn};

// How many bytes the local name in row i has.
pub fn name_length(base: &[u8], i: usize) -> usize
    requires { (length base.now ≡ base_length) × (i < limits.presences) }
    ensures { result ≡ length (strip (part base.now (presence_at i + name_offset) limits.name)) }
{
    name_fields::name_length(base::presence_field(base, i))
}

// The local name in row i.
fn local_name(base: &[u8], i: usize) -> &[u8]
    requires { (length base.now ≡ base_length) × (i < limits.presences) }
    ensures { result.now ≡ strip (part base.now (presence_at i + name_offset) limits.name) }
{
    let field = base::presence_field(base, i);
    &field[..name_fields::name_length(field)]
}

// Whether row i says that a type bears the name in SDS d.
fn is_named(base: &[u8], i: usize, d: usize, name: &[u8]) -> bool
    requires { (length base.now ≡ base_length) × (i < limits.presences) }
    ensures { result ≡ holds_name d name.now (presence_shown base.now i) }
{
    base::presence_sds(base, i) == d && names::is_same(local_name(base, i), name)
}

// The first row that says so.
pub fn row_named(base: &[u8], d: usize, name: &[u8]) -> Option<usize>
    requires { length base.now ≡ base_length }
    ensures first { let n = presence_count base.now in NamedRow base.now n d name.now (unwrap_or result n) }
    ensures below { IfSome result (λ row. row < presence_count base.now) }
{
    for row in 0..base::used::presence_count(base) {
        if is_named(base, row, d, name) {
            return Some(row);
        }
    }
    None
}

// The type that bears the name in SDS d.
pub fn type_in(base: &[u8], d: usize, name: &[u8]) -> Option<usize>
    requires { Sound base.now }
    ensures named { NamedIn (schema_of base.now) d name.now (unwrap_or result limits.types) }
    ensures below { IfSome result (λ t. t < limits.types) }
{
    let row = row_named(base, d, name)?;
    Some(base::presence_type(base, row))
}
