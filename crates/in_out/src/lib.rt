//! Words for contracts of calls that change what their parameters refer to. It has no code.
