//! The constructors of leaves: a value, an argument, an operation, a site.

ghost use Rattle.std.specs.Prelude.{◌≡◌, IfOk, IfErr};
ghost use Rattle.mh_tree.specs.Constructors.{constant_made, identity_made, op_made, invoke_made};

use crate::fault::TreeFault;
use crate::handle::Handle;
use crate::node::Node;
use mh_type::{Kind, MethodType, Op, Value};
use std::alloc::Global;

impl Handle {
    /// Returns a handle that returns one value (`MethodHandles.constant`).
    ///
    /// *Type*: no parameters, and the value's kind as return kind.
    ///
    /// *Pseudo-code*: `adapter() = value`.
    ///
    /// *Example*: the constant `int 7` is of type `()int` and returns `int 7` in one step.
    ///
    /// *Errors*: only `NoMemory`.
    pub fn constant(alloc: Global, value: &Value) -> Result<Handle, TreeFault>
        ensures value { IfOk result (λ h. h ≡ constant_made value.now) }
        ensures refused { IfErr result (λ e. e ≡ TreeFault.NoMemory) }
    {
        let method_type = MethodType::nullary(value.kind());
        let value = value.share().map_err(|_| TreeFault::NoMemory)?;
        Handle::of(alloc, Node::Constant(value), method_type, 1, 1, 0, 0)
    }

    /// Returns a handle that returns its argument (`MethodHandles.identity`).
    ///
    /// *Type*: one parameter, of the return kind.
    ///
    /// *Pseudo-code*: `adapter(x) = x`.
    ///
    /// *Example*: the identity of `long` is of type `(long)long`, and returns `long 5` for `long
    /// 5`.
    ///
    /// *Errors*: only `NoMemory`.
    pub fn identity(alloc: Global, kind: Kind) -> Result<Handle, TreeFault>
        ensures value { IfOk result (λ h. h ≡ identity_made kind) }
        ensures refused { IfErr result (λ e. e ≡ TreeFault.NoMemory) }
    {
        Handle::of(
            alloc,
            Node::Identity(kind),
            MethodType::unary(kind, kind),
            1,
            1,
            0,
            0,
        )
    }

    /// Returns a handle of a leaf operation.
    ///
    /// *Type*: that of the operation (`Op::op_type`).
    ///
    /// *Pseudo-code*: `adapter(arguments..) = op(arguments..)`.
    ///
    /// *Example*: `idiv` is of type `(int,int)int`. It returns `int -3` for `int -7` and `int 2`,
    /// and throws if the divisor is zero (JLS SE 17, 15.17.2).
    ///
    /// *Errors*: only `NoMemory`.
    pub fn op(alloc: Global, op: Op) -> Result<Handle, TreeFault>
        ensures value { IfOk result (λ h. h ≡ op_made op) }
        ensures refused { IfErr result (λ e. e ≡ TreeFault.NoMemory) }
    {
        Handle::of(alloc, Node::Operation(op), op.op_type(), 1, 1, 0, 0)
    }

    /// Returns a handle that invokes the current target of a site
    /// (`MutableCallSite.dynamicInvoker`).
    ///
    /// *Type*: the given one, which must be the site's.
    ///
    /// *Pseudo-code*: `adapter(arguments..) = sites[site].target(arguments..)`. If the target
    /// throws, this is the outcome.
    ///
    /// *Example*: if the target of site 0 is `ineg`, the handle of site 0 and the type `(int)int`
    /// returns `int -5` for `int 5` in two steps, one of its own and one of the target.
    ///
    /// *Errors*: only `NoMemory`.
    pub fn invoke(alloc: Global, site: u32, method_type: &MethodType) -> Result<Handle, TreeFault>
        ensures value { IfOk result (λ h. h ≡ invoke_made site method_type.now) }
        ensures refused { IfErr result (λ e. e ≡ TreeFault.NoMemory) }
    {
        let root = Node::Invoke {
            site,
            method_type: method_type.copy(),
        };
        let bound = site as usize + 1;
        Handle::of(alloc, root, method_type.copy(), 1, 1, 0, bound)
    }
}
