use ufs_joint::Naming;
use ufs_msg::{Answer, Request};

/// What comes of a request.
#[derive(Drop)]
pub enum Tried<N: Naming> {
    /// It was served, or excused for want of memory.
    Answered(Answer<N>),
    /// A worker has its file, and the answer sends it on there.
    Redirected { answer: Answer<N>, file: u32 },
    /// This file, which it wants, isn't here.
    Away { request: Request<N>, file: u32 },
}
