ghost use Rattle.std.specs.Prelude.{◌≡◌, ◌<◌, ◌&&◌, length, slice_get, IfSome, IfNone, None};
ghost use Rattle.std.specs.Option.{is_some};
ghost use Rattle.std.specs.Str.{bytes_eq};
ghost use Rattle.scev_queries.specs.Answers.{func_named};

use mlir_ir::Func;

/// Whether the function has that name, and a body.
fn is_named(func: &Func, name: &[u8]) -> bool
    ensures { result ≡ (bytes_eq func.now.name name.now && is_some func.now.body) }
{
    func.name.as_bytes() == name && func.body.is_some()
}

/// The place of the function of that name that has a body; `None` exactly where there is none.
pub fn place_of(funcs: &[Func], name: &[u8]) -> Option<usize>
    ensures within { IfSome result (λ at. at < length funcs.now) }
    ensures found { IfSome result (λ at. func_named funcs.now name.now ≡ slice_get funcs.now at) }
    ensures none { IfNone result (func_named funcs.now name.now ≡ None) }
{
    for (at, func) in funcs.iter().enumerate() {
        if is_named(func, name) {
            return Some(at);
        }
    }
    None
}
