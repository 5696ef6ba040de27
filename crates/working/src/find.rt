// A type by its local name, in the SDSs of a list.
ghost use Rattle.std.specs.Prelude.{◌<◌, IfSome};
ghost use Rattle.std.specs.Option.{unwrap_or};
ghost use Rattle.rules.specs.02-Limits.{limits};
ghost use Rattle.rules.specs.07-Picture.{Sound};
ghost use Rattle.base.specs.Back.{schema_of};
ghost use Rattle.working.specs.Listed.{NamedFirst};

// The type that bears the name in the first listed SDS that has it.
pub fn type_named(base: &[u8], schema: &[u8], name: &[u8]) -> Option<usize>
    requires { Sound base.now }
    ensures named { NamedFirst (schema_of base.now) schema.now name.now (unwrap_or result limits.types) }
    ensures below { IfSome result (λ t. t < limits.types) }
{
    for &d in schema {
        if let Some(row) = lookup::named::row_named(base, rows::wide(d), name) {
            return Some(base::presence_type(base, row));
        }
    }
    None
}
