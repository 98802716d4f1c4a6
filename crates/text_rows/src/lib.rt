//! Worked rows of texts: ports, words of a call, lines of a certificate, answers.
#![tactic(auto)]

#[cfg(test)]
mod of_answer_text;
#[cfg(test)]
mod of_cert_read;
#[cfg(test)]
mod of_check_run;
#[cfg(test)]
mod of_command_line;
#[cfg(test)]
mod of_desk;
#[cfg(test)]
mod of_gen_script;
