/// What was told of a file: a worker, and how many requests on the file it served.
#[derive(Clone, Copy, Debug, PartialEq, Eq)]
pub struct Noted {
    pub worker: u8,
    pub count: u32,
}
