// Examples and published data, as tables. This crate has no code but its tests. Where a value is not published it was computed by a
// program that shares nothing with the library (tools/expected.py).
#![tactic(auto)]

#[cfg(test)]
mod division;
#[cfg(test)]
mod expect;
#[cfg(test)]
mod polynomials;
#[cfg(test)]
mod quotients;
#[cfg(test)]
mod rings;
#[cfg(test)]
mod splitting;
#[cfg(test)]
mod worksheets;
