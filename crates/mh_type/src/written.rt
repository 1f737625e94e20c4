//! Reading a method type from a text.

ghost use Rattle.std.specs.Prelude.{[], ◌∷◌, ◌≡◌, ◌≤◌, ◌<◌, ◌+◌, ◌++◌, take, length, nat_lt, Ok, Err, IfOk, IsErrOf, MatchResult};
ghost use Rattle.mh_type.specs.Signature.{Signature};
ghost use Rattle.mh_type.specs.Written.{written, parsed, parameters_read};
ghost use Rattle.mh_type.specs.Limits.{most_parameters};

use crate::fault::TypeFault;
use crate::kind::Kind;
use crate::method_type::{MOST_PARAMETERS, MethodType};

impl MethodType {
    /// Returns the type of a text, such as `(int,String)long`. It does not allocate.
    ///
    /// It accepts exactly the texts that `write` returns. Fails with `TooManyParameters` for a text
    /// of that form with more than 16 parameters, and with `BadText` for any other text: with a
    /// space anywhere, an unknown kind, an empty part between commas, or anything after the return
    /// kind.
    pub fn parse(text: &str) -> Result<MethodType, TypeFault>
        ensures value { MatchResult result (λ m. parsed text.now ≡ Ok m)
            (λ e. parsed text.now ≡ Err e) }
        ensures read { IfOk result (λ m. text.now ≡ written m) }
        ensures many { IsErrOf result TypeFault.TooManyParameters
            → (m : Signature) × (text.now ≡ written m) × (most_parameters < length m.parameters) }
        ensures bad { IsErrOf result TypeFault.BadText → (m : Signature) → text.now ≡ written m
            → ⊥ }
    {
        read_type(text)
    }
}

// Returns the type of a text, following its grammar.
fn read_type(text: &str) -> Result<MethodType, TypeFault>
    ensures value { MatchResult result (λ m. parsed text.now ≡ Ok m)
        (λ e. parsed text.now ≡ Err e) }
{
    let Some(behind) = text.strip_prefix('(') else {
        return Err(TypeFault::BadText);
    };
    let Some((list, name)) = behind.split_once(')') else {
        return Err(TypeFault::BadText);
    };
    let Some(ret) = Kind::from_name(name) else {
        return Err(TypeFault::BadText);
    };
    read_parameters(ret, list)
}

// Returns the type with this return kind and the parameters of a list with commas between them.
fn read_parameters(ret: Kind, list: &str) -> Result<MethodType, TypeFault>
    ensures value { MatchResult result (λ m. parameters_read ret list.now ≡ Ok m)
        (λ e. parameters_read ret list.now ≡ Err e) }
{
    let mut made = MethodType::nullary(ret);
    if list.is_empty() {
        return Ok(made);
    }
    let mut fits = true;
    for name in list.split(',') {
        let Some(kind) = Kind::from_name(name) else {
            return Err(TypeFault::BadText);
        };
        fits &= put_last(&mut made, kind);
    }
    if fits {
        return Ok(made);
    }
    Err(TypeFault::TooManyParameters)
}

// Appends a parameter if there is room, and returns whether there was.
fn put_last(made: &mut MethodType, kind: Kind) -> bool
    ensures value { made.new ≡ record {
      ret = made.old.ret;
      parameters = take most_parameters
          (made.old.parameters ++ kind ∷ []);
    } }
    ensures room { result ≡ nat_lt (length made.old.parameters) most_parameters }
{
    if made.count() < MOST_PARAMETERS {
        made.push(kind);
        return true;
    }
    false
}
