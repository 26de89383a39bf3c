/// How a file stands, as far as calls so far have made it.
#[derive(Clone, Copy, Debug, PartialEq, Eq)]
pub struct Standing {
    /// Nobody else can lock it.
    pub is_locked: bool,
    /// The disk keeps its name in its folder.
    pub is_named: bool,
    /// A call has failed. Nothing more is asked then.
    pub has_failed: bool,
}
