//! Method types.

ghost use Rattle.std.specs.Prelude.{[], ◌∷◌, ◌≡◌, ◌<◌, ◌≤◌, ◌+◌, ◌++◌, take, drop, length, slice_index_or, string_bytes, IfOk, IfErr, IsTrue, ◌↔◌};
ghost use Rattle.mh_type.specs.Kinds.{kinds_eq};
ghost use Rattle.mh_type.specs.Signature.{Signature, signature_eq, with_parameters, without_parameters};
ghost use Rattle.mh_type.specs.Written.{written};
ghost use Rattle.mh_type.specs.Limits.{most_parameters};

use crate::fault::TypeFault;
use crate::kind::Kind;
use std::alloc::Global;
use std::fmt;
use std::marker::Model;

/// The greatest number of parameters.
pub const MOST_PARAMETERS: usize = 16;

/// A method type: a return kind and at most 16 parameter kinds (`java.lang.invoke.MethodType`). It
/// is stored without allocating.
#[derive(Drop)]
pub struct MethodType {
    result_kind: Kind,
    kinds: [Kind; 16],
    count: usize,
}

impl Model for MethodType {
    ghost use Rattle.std.specs.Prelude.{◌≡◌, take, length, ◌≤◌};
    ghost use Rattle.mh_type.specs.Limits.{most_parameters};
    ghost use Rattle.mh_type.specs.Signature.{Signature};

    ghost Value = { Signature };

    ghost view = { λ m. record { ret = m.result_kind; parameters = take m.count m.kinds } };

    ghost invariant = { λ m. (m.count ≤ most_parameters) × (length m.kinds ≡ most_parameters) };
}

impl MethodType {
    /// Returns the type of these parts. Fails with `TooManyParameters` if there are more than 16.
    pub fn new(ret: Kind, parameters: &[Kind]) -> Result<MethodType, TypeFault>
        ensures value { IfOk result (λ m. (m ≡ record { ret = ret; parameters = parameters.now })
            × (length parameters.now ≤ most_parameters)) }
        ensures refused { IfErr result (λ e. (e ≡ TypeFault.TooManyParameters)
            × (most_parameters < length parameters.now)) }
    {
        if parameters.len() > MOST_PARAMETERS {
            return Err(TypeFault::TooManyParameters);
        }
        let mut made = MethodType::nullary(ret);
        made.extend(parameters);
        Ok(made)
    }

    // Appends a parameter.
    pub(crate) fn push(&mut self, kind: Kind)
        requires inside { length self.old.parameters < most_parameters }
        ensures value { self.new ≡ record {
          ret = self.old.ret;
          parameters = self.old.parameters
              ++ kind ∷ [];
        } }
    {
        self.kinds[self.count] = kind;
        self.count += 1;
    }

    // Appends parameters.
    fn extend(&mut self, kinds: &[Kind])
        requires inside { length self.old.parameters + length kinds.now ≤ most_parameters }
        ensures value { self.new ≡ record {
          ret = self.old.ret;
          parameters = self.old.parameters
              ++ kinds.now;
        } }
    {
        for kind in kinds {
            self.push(*kind);
        }
    }

    /// Returns a copy of the type.
    pub fn copy(&self) -> MethodType
        ensures value { result ≡ self.now }
    {
        MethodType {
            result_kind: self.result_kind,
            kinds: self.kinds,
            count: self.count,
        }
    }

    /// Returns the return kind.
    pub fn ret(&self) -> Kind
        ensures value { result ≡ self.now.ret }
    {
        self.result_kind
    }

    /// Returns the number of parameters.
    pub fn count(&self) -> usize
        ensures value { result ≡ length self.now.parameters }
        ensures few { length self.now.parameters ≤ most_parameters }
    {
        self.parameters().len()
    }

    /// Returns the kind of a parameter.
    pub fn parameter(&self, place: usize) -> Kind
        requires inside { place < length self.now.parameters }
        ensures value { result ≡ slice_index_or self.now.parameters place result }
    {
        self.kinds[place]
    }

    /// Returns the kinds of the parameters.
    pub fn parameters(&self) -> &[Kind]
        ensures value { result.now ≡ self.now.parameters }
        ensures few { length self.now.parameters ≤ most_parameters }
    {
        &self.kinds[..self.count]
    }

    /// Returns the type with these parameters inserted before an index. Fails with
    /// `TooManyParameters` if there would be more than 16.
    pub fn insert(&self, place: usize, more: &[Kind]) -> Result<MethodType, TypeFault>
        requires inside { place ≤ length self.now.parameters }
        ensures value { IfOk result (λ m. (m ≡ record
            { ret = self.now.ret; parameters = with_parameters self.now.parameters place more.now })
            × (length self.now.parameters + length more.now ≤ most_parameters)) }
        ensures refused { IfErr result (λ e. (e ≡ TypeFault.TooManyParameters)
            × (most_parameters < length self.now.parameters + length more.now)) }
    {
        if more.len() > MOST_PARAMETERS - self.count {
            return Err(TypeFault::TooManyParameters);
        }
        let kinds = self.parameters();
        let mut made = MethodType::nullary(self.result_kind);
        made.extend(&kinds[..place]);
        made.extend(more);
        made.extend(&kinds[place..]);
        Ok(made)
    }

    /// Returns the type without `count` parameters from an index on.
    pub fn remove(&self, place: usize, count: usize) -> MethodType
        requires inside { place + count ≤ length self.now.parameters }
        ensures value { result ≡ record {
          ret = self.now.ret;
          parameters = without_parameters
              self.now.parameters place count;
        } }
    {
        let kinds = self.parameters();
        let mut made = MethodType::nullary(self.result_kind);
        made.extend(&kinds[..place]);
        made.extend(&kinds[place + count..]);
        made
    }

    /// Returns the same type with another return kind.
    pub fn returning(&self, ret: Kind) -> MethodType
        ensures value { result ≡ record { ret = ret; parameters = self.now.parameters } }
    {
        MethodType {
            result_kind: ret,
            kinds: self.kinds,
            count: self.count,
        }
    }

    /// Returns whether both types are equal, that is, all their parts are.
    pub fn equals(&self, other: &MethodType) -> bool
        ensures value { result ≡ signature_eq self.now other.now }
        ensures same { IsTrue result ↔ (self.now ≡ other.now) }
    {
        self.ret().is(other.ret()) && same_kinds(self.parameters(), other.parameters())
    }

    /// Returns the text of the type, as `(int,String)long`: `(`, the parameter kinds with commas
    /// between them, `)`, and the return kind, without spaces. Fails only with `NoMemory`.
    pub fn write(&self, alloc: Global) -> Result<String, TypeFault>
        ensures value { IfOk result (λ s. string_bytes s ≡ written self.now) }
        ensures refused { IfErr result (λ e. e ≡ TypeFault.NoMemory) }
    {
        format!(in alloc; "{self}").map_err(|_| TypeFault::NoMemory)
    }

    /// Returns the type without parameters.
    pub fn nullary(ret: Kind) -> MethodType
        ensures value { result ≡ record { ret = ret; parameters = [] } }
    {
        MethodType {
            result_kind: ret,
            kinds: [Kind::Int; 16],
            count: 0,
        }
    }

    /// Returns the type with one parameter.
    pub fn unary(parameter: Kind, ret: Kind) -> MethodType
        ensures value { result ≡ record { ret = ret; parameters = parameter ∷ [] } }
    {
        let mut made = MethodType::nullary(ret);
        made.push(parameter);
        made
    }

    /// Returns whether these are the first parameters, in order.
    pub fn begins_with(&self, first: &[Kind]) -> bool
        ensures value { result ≡ kinds_eq first.now (take (length first.now) self.now.parameters) }
        ensures same { IsTrue result ↔ (first.now ≡ take (length first.now) self.now.parameters) }
    {
        begins_with(self.parameters(), first)
    }
}

impl PartialEq for MethodType {
    ghost use Rattle.std.specs.Prelude.{◌&&◌};
    ghost use Rattle.std.proofs.Common.{rules};
    ghost use Rattle.std.specs.Cmp.{and_per, on_per};
    ghost use Rattle.std.specs.Cmp.Rules.{comparing};
    ghost use Rattle.std.specs.Cmp.Lexicographic.{pointwise, lists_per};
    ghost use Rattle.mh_type.specs.contracts.kind.KindPartialEq.TheImpl.{eq-value};

    ghost eq = { λ m n. eq-value.it m.ret n.ret && pointwise eq-value.it m.parameters n.parameters };

    ghost laws = { and_per
        (on_per (λ m. m.ret) (Prim.search (comparing, rules)))
        (on_per (λ m. m.parameters) (lists_per (Prim.search (comparing, rules)))) };

    fn eq(&self, other: &MethodType) -> bool {
        self.result_kind == other.result_kind && self.parameters() == other.parameters()
    }
}

impl Eq for MethodType {
    ghost use Rattle.std.proofs.Common.{rules};
    ghost use Rattle.std.specs.Cmp.{and_equiv, on_equiv};
    ghost use Rattle.std.specs.Cmp.Rules.{comparing};
    ghost use Rattle.std.specs.Cmp.Lexicographic.{lists_equiv};

    ghost laws = { and_equiv
        (on_equiv (λ m. m.ret) (Prim.search (comparing, rules)))
        (on_equiv (λ m. m.parameters) (lists_equiv (Prim.search (comparing, rules)))) };
}

/// Writes the text of the type, as `Display` does.
impl fmt::Debug for MethodType {
    fn fmt<W: fmt::Write>(&self, f: &mut fmt::Formatter<W>) -> fmt::Result {
        write!(f, "{self}")
    }
}

/// Returns whether two lists of kinds are equal.
pub fn same_kinds(some: &[Kind], others: &[Kind]) -> bool
    ensures value { result ≡ kinds_eq some.now others.now }
    ensures same { IsTrue result ↔ (some.now ≡ others.now) }
{
    some == others
}

/// Returns whether a list of kinds begins with another.
pub fn begins_with(kinds: &[Kind], first: &[Kind]) -> bool
    ensures value { result ≡ kinds_eq first.now (take (length first.now) kinds.now) }
    ensures same { IsTrue result ↔ (first.now ≡ take (length first.now) kinds.now) }
{
    first.len() <= kinds.len() && same_kinds(first, &kinds[..first.len()])
}
