// The call `rewrite`: PushDownFilter::rewrite at one record of any bytes.
#![tactic(auto)]

pub mod call_rewrite;
