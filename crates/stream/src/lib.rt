// The stream that changes a part: its definition, for the compiler and for the theorem over the loader.
#![tactic(auto)]
