use crate::call::Call;
use crate::reply::Reply;

// A call with the reply to it.
#[derive(Clone, Copy, PartialEq, Eq)]
pub struct Exchange<V> {
    pub call: Call<V>,
    pub reply: Reply,
}
