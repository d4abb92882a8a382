//! Tests of the calls for planned links, files, marks and entries, each once, over images in memory. Results for other images are rows of
//! `ldconfig_cli_image_tests`.
#![tactic(auto)]

#[cfg(test)]
mod fault;
#[cfg(test)]
mod image;
#[cfg(test)]
mod searches;
#[cfg(test)]
mod shown;
#[cfg(test)]
mod want;
