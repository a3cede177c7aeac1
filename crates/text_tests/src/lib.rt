//! Tests of what is read and written as text: labels, scripts and target files, through public
//! calls.
#![tactic(auto)]

#[cfg(test)]
mod bulk;
#[cfg(test)]
mod labels;
#[cfg(test)]
mod scripts;
#[cfg(test)]
mod target_files;
