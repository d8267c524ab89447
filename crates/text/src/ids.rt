// A stream number and a request number are both u32, and no call can take one for the other.

#[derive(Clone, Copy, Debug, PartialEq, Eq)]
pub struct StreamId(pub u32);

#[derive(Clone, Copy, Debug, PartialEq, Eq)]
pub struct RequestId(pub u32);
