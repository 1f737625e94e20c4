//! The runtime for C: a static library, whose header is `mhlink.h`.
//!
//! C keeps a machine as a struct of one pointer. The library does not validate its arguments: the
//! caller passes a struct that `mhlink_open` filled, to one call at a time, and to none after
//! `mhlink_close`. Every function returns a status, 0 or an error code (`Failure::number`); after
//! an error the machine is unchanged.
#![tactic(auto)]

mod amounts;
mod books;
mod buffers;
mod caller;
mod caller_calls;
mod caller_handle;
mod calling;
mod changing;
mod crossing;
mod desk;
mod desk_calls;
mod desk_handle;
mod desk_opening;
mod desk_renewing;
mod detail;
mod details;
mod explaining;
mod extending;
mod failure;
mod finding;
mod flow;
mod further;
mod handle;
mod held;
mod host;
mod keys;
mod opening;
mod planning;
mod reading;
mod renewing;
mod request;
mod resuming;
mod site_trees;
mod texts;
mod tree;
mod tree_calls;
mod tree_handle;
mod value;
mod wording;
