//! Patterns of names and paths.

/// Whether a path is of a pattern. `*` stands for any letters but `/` or none, `?` for one letter but `/`, `[a-c]` for
/// one of these letters and `[!a-c]` for another one, `\` before a letter for that letter, and each other letter for
/// itself. `**/` stands for any folders or none, and `/**` at the end for all that a folder has.
///
/// Costs the pattern's length times the square of the path's at most, and takes no memory.
pub fn is_glob_match(pattern: &str, path: &str) -> bool {
    let mut at = At {
        pattern,
        path,
        star: None,
        folders: None,
    };
    // the path fits exactly where what is left of it fits what is left of the pattern, or what is kept of a star
    for _ in 0..u64::MAX {
        match at.next() {
            Next::On(next) => at = next,
            Next::Done(fits) => return fits,
        }
    }
    false
}

// How far a pattern and a path are compared.
#[derive(Clone, Copy)]
struct At<'a, 'b> {
    pattern: &'a str,
    path: &'b str,
    // where to go on with one more letter for the last `*`
    star: Option<(&'a str, &'b str)>,
    // where to go on with one more folder for the last `**/`
    folders: Option<(&'a str, &'b str)>,
}

// What comes of a step.
#[derive(Clone, Copy)]
enum Next<'a, 'b> {
    On(At<'a, 'b>),
    Done(bool),
}

impl<'a, 'b> At<'a, 'b> {
    // Compares the next part of the pattern.
    fn next(&self) -> Next<'a, 'b> {
        if self.pattern == "**" {
            return Next::Done(!self.path.is_empty());
        }
        if let Some(behind) = self.pattern.strip_prefix("**/") {
            // what stood for an earlier star stays: the first place that fits is as good as another
            return Next::On(At {
                pattern: behind,
                path: self.path,
                star: None,
                folders: Some((behind, self.path)),
            });
        }
        if let Some(behind) = self.pattern.strip_prefix('*') {
            return Next::On(At {
                pattern: behind,
                path: self.path,
                star: Some((behind, self.path)),
                folders: self.folders,
            });
        }
        if self.pattern.is_empty() && self.path.is_empty() {
            return Next::Done(true);
        }
        match step(self.pattern, self.path) {
            Some((pattern, path)) => Next::On(At {
                pattern,
                path,
                ..*self
            }),
            None => self.again(),
        }
    }

    // Goes back to the last star that may stand for more.
    fn again(&self) -> Next<'a, 'b> {
        if let Some((pattern, path)) = self.star.and_then(longer) {
            return Next::On(At {
                pattern,
                path,
                star: Some((pattern, path)),
                folders: self.folders,
            });
        }
        match self.folders.and_then(one_folder_more) {
            Some((pattern, path)) => Next::On(At {
                pattern,
                path,
                star: None,
                folders: Some((pattern, path)),
            }),
            None => Next::Done(false),
        }
    }
}

// The pattern behind a star, and the path with one more letter for the star; none where that would be a `/`, or the
// path has no more.
fn longer<'a, 'b>(star: (&'a str, &'b str)) -> Option<(&'a str, &'b str)> {
    let (pattern, path) = star;
    let mut given = path.chars();
    match given.next() {
        None | Some('/') => None,
        Some(_) => Some((pattern, given.as_str())),
    }
}

// The pattern behind a `**/`, and the path behind one more folder; none where it has no more.
fn one_folder_more<'a, 'b>(folders: (&'a str, &'b str)) -> Option<(&'a str, &'b str)> {
    let (pattern, path) = folders;
    let (_, behind) = path.split_once('/')?;
    Some((pattern, behind))
}

// What is left of both behind a letter that fits.
fn step<'a, 'b>(pattern: &'a str, path: &'b str) -> Option<(&'a str, &'b str)> {
    let mut wanted = pattern.chars();
    let mut given = path.chars();
    let want = wanted.next()?;
    let have = given.next()?;
    let behind = behind_letter(want, wanted.as_str(), have)?;
    Some((behind, given.as_str()))
}

// What stands in a pattern behind its first sign, where that fits a letter.
fn behind_letter(sign: char, rest: &str, letter: char) -> Option<&str> {
    let is_fitting = match sign {
        '?' => letter != '/',
        '[' => match class(rest, letter) {
            Some((true, behind)) if letter != '/' => return Some(behind),
            Some(_) => false,
            // a bracket that isn't ended is a letter
            None => letter == '[',
        },
        '\\' => return rest.strip_prefix(letter),
        sign => sign == letter,
    };
    if is_fitting { Some(rest) } else { None }
}

// Whether a class that begins behind its bracket has a letter, and what stands behind it; none where it isn't ended. Its
// first letter may be a bracket.
fn class(pattern: &str, letter: char) -> Option<(bool, &str)> {
    let inner = pattern.strip_prefix(|sign: char| sign == '!' || sign == '^');
    let is_turned = inner.is_some();
    let inner = inner.unwrap_or(pattern);
    let mut left = inner;
    let mut is_in = false;
    // whether the letter is in one of the ranges before those that are left
    for turn in 0..inner.len() {
        let mut letters = left.chars();
        let first = letters.next()?;
        if first == ']' && turn > 0 {
            return Some((is_in != is_turned, letters.as_str()));
        }
        let (last, behind) = range_end(first, letters.as_str());
        left = behind;
        is_in = is_in || (first <= letter && letter <= last);
    }
    None
}

// The last letter of a range in a class that begins with a letter, and what stands behind it.
fn range_end(first: char, behind: &str) -> (char, &str) {
    let Some(rest) = behind.strip_prefix('-') else {
        return (first, behind);
    };
    let mut letters = rest.chars();
    match letters.next() {
        None | Some(']') => (first, behind),
        Some(last) => (last, letters.as_str()),
    }
}
