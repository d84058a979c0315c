//! Tests over modules as texts that are data: a file of tests in TOML, and one call that runs them.
//!
//! [`all_hold`] runs each test of a file. A case has the text of a module and says what is asked; what comes is a text, and has to be that
//! of `comes`. What a case doesn't say its test says, what that doesn't say is as usual in the file, and else as usual in all files:
//! `case_files` says how a file is made, and `usual` what is usual.
//!
//! ```toml
//! [usual]
//! by = "check"
//!
//! [[test]]
//! name = "a_symbol_has_this_price"
//!
//! [[test.case]]
//! texts.after = "x : type."
//! budgets = [1, 8, 0]
//! comes = "Yes 0, Yes 7, Over 0"
//! ```
//!
//! What is given:
//! - `text`, a text or a list of parts, which are joined: usually the prelude and then the text `after`, or `l` and `r` as definitions.
//! - `limits`, how long a text may be, of which each is tried: `"free"`, or a number of bytes, or `{ behind = 3 }`, so many bytes
//!   behind `start`.
//! - `pieces`, how many bytes are fed at once by `read`, `feed`, `cuts` and `find`: each number is tried.
//! - `start`, where places in the text are counted from: usually the end of the prelude.
//! - `by`, what is asked, and the further keys that it takes.
//!
//! | `by` | What comes |
//! |---|---|
//! | `read` | the declarations that are read, as `symbol a, def b, thm c`, or the fault, as `BadText at 20` or `UnknownName b at 4` |
//! | `feed` | the fault with which the text is fed, one more piece is fed, and the end is told |
//! | `steps` | behind each part of `text`, which is fed by itself, how many bytes are held, with the fault if there is one; and what is read |
//! | `cuts` | of how many beginnings of the text that are shorter the end is told as `NoPrelude` at that end |
//! | `find` | the symbol of each name of `names`, or `none` |
//! | `check` | the answer to the check of the last declaration and the steps that are left, for each of `budgets` |
//! | `verdict` | the verdict on the module under `budgets`, of which each declaration has one |
//! | `fast` | the same of the check without rechecks of sorts |
//! | `infer` | whether the type of what stands under the two binders of the last body, in their context, is found to be what stands under those of its type, `declared`, or `another`, or `none` is, or it is `over`, for each of `budgets` |
//! | `loose` | the same in no context |
//! | `convert` | the answer to whether the bodies of `l` and `r` are convertible and the steps that are left, for each of `budgets` |
//! | `step` | whether the head step of the body of `l` goes to the body of `r`, or elsewhere, or there is none |
//! | `weigh` | the weight of each declaration, its bound, and its bound without rechecks of sorts |
//! | `decode` | the closed sequent for which the type of the last declaration stands, or `none` |
//! | `decodes` | `some` where it stands for one, or `none` |
//! | `write` | the text that is written, with `budgets` as bounds; where the sink fails at its call `fails`, `failed ` and what it holds |
//! | `pieces` | how many bytes each piece has that the sink gets |
//! | `last` | the prelude, and what the last declaration adds, each written by itself |
//! | `discard` | `written`, where what is written is dropped |
#![tactic(auto)]

mod answers;
mod checks;
mod conversions;
mod faults;
mod modules;
mod readings;
mod sequents;
mod tries;
mod types;
mod usual;
mod weights;
mod writing;

pub use crate::tries::all_hold;
