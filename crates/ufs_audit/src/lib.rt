//! An auditor of printed histories.
#![tactic(auto)]

mod answers;
mod auditor;
mod fault;
mod head;
mod law;
mod reader;
mod state;
mod verdict;

pub use auditor::audit;
pub use fault::AuditFault;
pub use law::{
    a_legal_front_is_printed, a_legal_text_is_printed, a_printed_front_is_legal,
    a_printed_text_is_legal,
};
pub use verdict::{Verdict, Wrong};
