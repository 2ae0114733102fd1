//! How many sessions a house may have.
ghost use Rattle.std.specs.Prelude.{◌≡◌};
ghost use Rattle.house_model.specs.States.{usual};

/// How many sessions there may be, those among them whose connection was lost and that wait to be resumed.
#[derive(Clone, Copy, Debug, PartialEq, Eq)]
pub struct Limits {
    /// Of all users together.
    pub sessions: u32,
    /// Of one user.
    pub of_user: u32,
}

impl Limits {
    /// 512 sessions in all, whose full queues take 2 GiB, and 16 of one user: more devices than anyone has.
    pub fn usual() -> Limits
        ensures { result ≡ usual }
    {
        Limits {
            sessions: 512,
            of_user: 16,
        }
    }
}
