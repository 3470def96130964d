//! The scripts and expressions among the words of a command (the page of each).

use std::alloc::{AllocError, Global};

/// What a word is for.
#[derive(Clone, Copy, Debug, PartialEq, Eq)]
pub enum Role {
    /// Its value alone counts.
    Value,
    /// It is evaluated as a script, in the same place.
    Body,
    /// It is evaluated as a script, whose errors are caught.
    Caught,
    /// It is evaluated as a script when a procedure is called.
    Procedure,
    /// It is an expression.
    Expression,
    /// It is a list of patterns with scripts behind them.
    Patterns,
}

/// The role of a word of if(n), which is a condition or stands behind one.
fn role_in_if(word: Option<&str>, is_condition: bool) -> Role {
    if is_condition {
        Role::Expression
    } else if word == Some("then") || word == Some("else") || word == Some("elseif") {
        Role::Value
    } else {
        Role::Body
    }
}

/// Adds the roles of the words of if(n): a condition is the first, and what stands behind `elseif`.
fn roles_in_if(roles: &mut Vec<Role>, words: &[Option<&str>]) -> Result<(), AllocError> {
    let mut is_condition = true;
    for word in words {
        let role = role_in_if(*word, is_condition);
        is_condition = role == Role::Value && *word == Some("elseif");
        roles.push(role)?;
    }
    Ok(())
}

/// How many options of switch(n) stand before its text.
fn count_of_options(words: &[Option<&str>]) -> usize {
    let mut count = 0usize;
    for word in words {
        if *word == Some("--") {
            return count.saturating_add(1);
        }
        match *word {
            Some(option) if option.starts_with('-') => count = count.saturating_add(1),
            _ => break,
        }
    }
    count
}

/// The role of a word of switch(n) that many places behind the text, of which there are so many: one list, or patterns
/// and bodies in turn.
fn role_in_switch(word: Option<&str>, behind: usize, count: usize) -> Role {
    if behind == 0 || word == Some("-") {
        Role::Value
    } else if count == 1 {
        Role::Patterns
    } else if behind % 2 == 0 {
        Role::Body
    } else {
        Role::Value
    }
}

/// Adds the roles of the words of switch(n).
fn roles_in_switch(roles: &mut Vec<Role>, words: &[Option<&str>]) -> Result<(), AllocError> {
    let text = count_of_options(words);
    let count = words.len().saturating_sub(text).saturating_sub(1);
    for (place, word) in words.iter().enumerate() {
        roles.push(role_in_switch(*word, place.saturating_sub(text), count))?;
    }
    Ok(())
}

/// Adds the roles of the words behind the name of a command, as far as some of these aren't values.
fn roles_behind(
    roles: &mut Vec<Role>,
    name: &str,
    words: &[Option<&str>],
) -> Result<(), AllocError> {
    match name {
        "if" => roles_in_if(roles, words),
        "expr" => roles.resize(words.len().saturating_add(1), Role::Expression),
        "while" => roles.extend_from_slice(&[Role::Expression, Role::Body]),
        "for" => roles.extend_from_slice(&[Role::Body, Role::Expression, Role::Body, Role::Body]),
        "foreach" => {
            roles.resize(words.len().max(1), Role::Value)?;
            roles.extend_from_slice(&[Role::Body])
        }
        "catch" => roles.extend_from_slice(&[Role::Caught]),
        "proc" => roles.extend_from_slice(&[Role::Value, Role::Value, Role::Procedure]),
        "switch" => roles_in_switch(roles, words),
        _ => Ok(()),
    }
}

/// The roles of the words of a command, of which the first names it, where they are known.
pub fn roles_of(alloc: Global, words: &[Option<&str>]) -> Result<Vec<Role>, AllocError> {
    let mut roles = Vec::new(alloc);
    if let [first, others @ ..] = words {
        roles.push(Role::Value)?;
        roles_behind(&mut roles, first.unwrap_or(""), others)?;
        roles.resize(words.len(), Role::Value)?;
    }
    Ok(roles)
}
