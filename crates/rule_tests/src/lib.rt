// Tests of the role network and of the six rules, and of what each question costs.
#![tactic(auto)]

#[cfg(test)]
mod calls;
#[cfg(test)]
mod costs;
#[cfg(test)]
mod networks;
#[cfg(test)]
mod verdicts;
